ghost use Rattle.std.specs.Prelude.{◌≡◌, List, true};
ghost use Rattle.site_core.specs.State.{State};
ghost use Rattle.site_core.specs.Passes.{LeavesOnly};
ghost use Rattle.jrn_format.specs.declared.journal.Journal.{Journal};
ghost use Rattle.book_model.specs.Book.{contents_of};
ghost use Rattle.book_model.specs.Machine.{Machine};
ghost use Rattle.book_model.specs.Opening.{book_on};
ghost use Rattle.desk_book.specs.declared.call.Call.{Call};
ghost use Rattle.desk_book.specs.Calls.{AreAnswered, replayed};
ghost use Rattle.desk_book.specs.Closing.{is_served};
ghost use Rattle.desk_laws.specs.Joined.{AllGo, IsOpenedOn, IsKeptAs, LeadsTo};

/// At any point of a desk's history, with at most one job in flight for each device, a power cut leaves a recoverable state.
///
/// The desk was made of a book that had just been opened on the line, and the jobs that the book's calls handed out led the disk and each
/// slave to where they are. Recoverable means: redo of the live journal gives the contents after a prefix of the accepted commands, with
/// every durable one in it. This holds also after a fault and after a power cut. Once everything is settled without a fault, redo gives
/// the contents after all accepted commands.
pub fn what_a_desk_leaves_is_kept()
    ensures kept { (machine : Machine) (journal : Journal) (old new : State) (calls : List Call) → IsOpenedOn machine journal old calls
        → AreAnswered (book_on old journal) calls → AllGo calls old new → IsKeptAs machine (replayed (book_on old journal) calls) new }
    ensures served { (machine : Machine) (journal : Journal) (old new : State) (calls : List Call) → IsOpenedOn machine journal old calls
        → AreAnswered (book_on old journal) calls → AllGo calls old new → is_served (replayed (book_on old journal) calls) ≡ true
        → LeavesOnly (LeadsTo (contents_of (replayed (book_on old journal) calls))) new }
{}

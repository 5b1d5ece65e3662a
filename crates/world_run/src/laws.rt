ghost use Rattle.std.specs.Prelude.{◌≡◌, ℕ, List, length, Result, None};
ghost use Rattle.std.specs.List.{AllByRecursion};
ghost use Rattle.esc_model.specs.WordAccess.{IsIdle};
ghost use Rattle.book_model.specs.Kept.{Kept};
ghost use Rattle.book_model.specs.Machine.{Machine};
ghost use Rattle.book_model.specs.declared.fault.CoreFault.{CoreFault};
ghost use Rattle.book_model.specs.Opening.{words_in};
ghost use Rattle.world_law.specs.World.{Reported, World};
ghost use Rattle.world_law.specs.Happenings.{Steps};
ghost use Rattle.world_law.specs.Law.{MachineFits, Starts};
ghost use Rattle.world_run.specs.declared.happenings.Event.{Event};
ghost use Rattle.world_run.specs.Step.{Went, as_event};
ghost use Rattle.world_run.specs.Torn.{synced_of};

/// Every step of a world in memory is a step of the main law.
pub fn a_step_is_one_of_the_law()
    ensures { (event : Event) (old new : World) (result : Result (Unit {0}) CoreFault) → Went event old result new
        → (reported : Reported) × Steps (as_event event) old reported new }
{}

/// The main law starts from a world that is down, with idle slaves, whose disk was made of bytes with a journal that is kept. Such are
/// a journal of version 1 and a migration that was cut.
///
/// `World::with_disk` makes such a world of the bytes.
pub fn a_world_on_a_kept_disk_starts()
    ensures { (world : World) (bytes : List ℕ) (machine : Machine) → world.book ≡ None → world.state.disk ≡ synced_of bytes
        → AllByRecursion IsIdle world.state.halves → length world.took ≡ length world.state.halves
        → Kept bytes (words_in world.state.halves) machine → MachineFits machine → Starts world machine }
{}

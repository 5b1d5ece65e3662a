ghost use Rattle.std.specs.Prelude.{◌≡◌};

use book_parts::Spot;
use jrn_format::Form;

/// What a book is doing with the disk: the step that is handed out, or will be next.
#[derive(Clone, Copy, Drop)]
pub(crate) enum Step {
    /// No step.
    Resting,
    /// Append: the batch is written after its gate, with a closed gate at its end.
    Payload(Spot),
    /// Append: the batch is synced.
    PayloadSync(Spot),
    /// Append: the gate before the batch is opened.
    OpenGate(Spot),
    /// Append: the gate is synced, and the batch is live then.
    OpenSync(Spot),
    /// Retire: the first gate of the older half is closed.
    CloseGate,
    /// Retire: the gate is synced.
    CloseSync,
    /// Migration: the first gate of half 1 is closed.
    FarGate,
    /// Migration: the mark is written, unless a migration that was cut has left it.
    Mark,
    /// Migration: gate and mark are synced.
    MarkSync,
    /// Migration: the version byte becomes 2.
    Version,
    /// Migration: the version byte is synced.
    VersionSync,
}

impl Step {
    ghost use Rattle.std.specs.Option.{option_map};
    ghost use Rattle.book_parts.specs.Spot.{as_place};
    ghost use Rattle.book_core.specs.Steps.{place_appended, step_after};

    /// Where the batch goes that is being appended; `None` if none is.
    pub(crate) fn spot(self) -> Option<Spot>
        ensures { option_map as_place result ≡ place_appended self }
    {
        match self {
            Step::Payload(spot)
            | Step::PayloadSync(spot)
            | Step::OpenGate(spot)
            | Step::OpenSync(spot) => Some(spot),
            _ => None,
        }
    }

    /// The step after this one, in a journal of this form.
    pub(crate) fn after(self, form: Form) -> Step
        ensures { result ≡ step_after form self }
    {
        match self {
            Step::Payload(spot) => Step::PayloadSync(spot),
            Step::PayloadSync(spot) => Step::OpenGate(spot),
            Step::OpenGate(spot) => Step::OpenSync(spot),
            Step::CloseGate => Step::CloseSync,
            Step::FarGate if form == Form::Moving => Step::MarkSync,
            Step::FarGate => Step::Mark,
            Step::Mark => Step::MarkSync,
            Step::MarkSync => Step::Version,
            Step::Version => Step::VersionSync,
            Step::Resting | Step::OpenSync(_) | Step::CloseSync | Step::VersionSync =>
                Step::Resting,
        }
    }
}

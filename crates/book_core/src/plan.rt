ghost use Rattle.std.specs.Prelude.{◌≡◌};

use crate::book::Core;
use sii_image::{ImageFault, Plan};

impl Core {
    ghost use Rattle.book_core.specs.Plan.{IsPlan};

    /// The plan of the cyclic exchange: the process image of the contents after the settled commands, and how many these are (see
    /// `applied`). To contracts the book stays as it is.
    ///
    /// # Errors
    ///
    /// `ImageOverLimit`: these contents have no process image, since it would exceed 1,486 bytes, or 8 segments in a slave. `Memory`
    /// may come in place of any answer.
    pub fn plan(&mut self) -> Result<Plan, ImageFault>
        ensures plan { IsPlan self.old result }
        ensures same { self.new ≡ self.old }
    {
        let prefix = self.applied();
        self.shown
            .bring_up(self.alloc, self.ledger.accepted(), prefix)?;
        let image = self.shown.image()?;
        Ok(Plan { prefix, image })
    }
}

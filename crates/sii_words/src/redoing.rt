ghost use Rattle.std.specs.Prelude.{◌≡◌, [], ◌∷◌, All};
ghost use Rattle.sii_words.specs.Redo.{redone, LiesInside};

use crate::Plant;
use crate::run::Run;

/// Redoes runs: writes their words into the plant, in order, without taking memory. Each word that a run names must exist.
pub fn redo(plant: &mut Plant, runs: &[Run])
    requires { All (LiesInside plant.old) runs.now }
    ensures { plant.new ≡ redone plant.old runs.now }
{
    for run in runs {
        write_run(plant, run);
    }
}

fn write_run(plant: &mut Plant, run: &Run)
    requires { LiesInside plant.old run.now }
    ensures { plant.new ≡ redone plant.old (run.now ∷ []) }
{
    let first = usize::from(run.first);
    for (place, word) in run.words.as_slice().iter().enumerate() {
        plant.set(usize::from(run.slave), first + place, *word);
    }
}

//! The capture of a call: a file with the frames on its wire.
ghost use Rattle.std.specs.Prelude.{◌≡◌, ◌⊎◌, option_map};
ghost use Rattle.station_files.specs.Faults.{IsFaultless};
ghost use Rattle.station_files.specs.Files.{ChangesOnly};
ghost use Rattle.station_serve.specs.Captures.{BeginsCapture};

use line_watch::{BeginFault, Capture};
use site_file::RandomAccessFile;
use station_files::{ExitStatus, Failures, Fault, Place, Store, Wrong, worse};

/// Begins a capture in the file of this name, if there is one: `Busy` where another station has the file; `Exists` where it holds something else
/// than a capture of this program, and it stays as it is then; `File` where it can't be created or written; `Memory`.
pub(crate) fn begin_capture<S: Store>(
    name: Option<&str>,
    store: &mut S,
) -> Result<Option<Capture<S::File>>, Fault>
    ensures { BeginsCapture (option_map (λ given. given.now) name.entry) (S.files store.old) (S.files store.new) }
{
    match name {
        Some(name) => begin_in(name, store),
        None => Ok(None),
    }
}

/// Begins a capture in the file of this name.
fn begin_in<S: Store>(name: &str, store: &mut S) -> Result<Option<Capture<S::File>>, Fault>
    ensures { ChangesOnly (S.files store.old) (S.files store.new) name.now }
{
    let file = store.create(name)?;
    match Capture::begin(file) {
        Ok(capture) => Ok(Some(capture)),
        Err(BeginFault::Occupied) => {
            let fault = Fault::Exists;
            store.note(fault.code(), Place::File(name), &Wrong::NoCapture);
            Err(fault)
        }
        Err(BeginFault::Io(error)) => Err(Fault::from(error)),
    }
}

/// Ends the capture of a call that ends with this status, and returns the status of both. A fault of the capture is noted.
pub(crate) fn end_capture<F: RandomAccessFile + Drop>(
    capture: Option<Capture<F>>,
    status: ExitStatus,
    failures: &mut Failures,
) -> ExitStatus
    ensures { (result ≡ status) ⊎ (¬ IsFaultless result) }
{
    let Some(capture) = capture else {
        return status;
    };
    match capture.end() {
        Ok(()) => status,
        Err(error) => worse(status, failures.note(Fault::from(error))),
    }
}

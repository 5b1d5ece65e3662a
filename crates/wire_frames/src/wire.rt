//! What a station asks of a wire.
ghost use Rattle.std.specs.Prelude.{ℕ, List, take, IfOk};

use std::io;

/// A wire with slaves on it, which carries EtherCAT frames (ETG.1000.4). It may lose frames, and double and delay them, but it keeps
/// their order. No contract says which frames come back.
pub trait Wire {
    /// The frames that the wire gives: a property of the implementor's choice that each of them has. What is said of frames that came holds
    /// for any choice, so also for the one by which a wire gives just those that came over it.
    ghost gives: { List ℕ → Type 0 };

    /// The frames that the wire was given to send: a property of the implementor's choice that each of them has, none unless it says so. What is
    /// said of frames that were sent holds for any choice, so also for the one that just those have that the wire was given.
    ghost takes: { List ℕ → Type 0 } = { λ _. Unit {0} };

    /// Sends a frame of 1,500 bytes at most.
    ///
    /// # Errors
    ///
    /// Where the frame can't be sent.
    fn send(&mut self, frame: &[u8]) -> io::Result<()>
        ensures { takes frame.now };

    /// Waits for a frame, puts it at the front of `bytes`, which has room for 1,500, and gives its length in bytes. What isn't an
    /// EtherCAT frame has the length 0.
    ///
    /// # Errors
    ///
    /// Where no frame comes within the wire's time-out, which is some milliseconds from the last sending on. `Interrupted` where the wait was cut
    /// short.
    fn receive(&mut self, bytes: &mut [u8]) -> io::Result<usize>
        ensures { IfOk result (λ length. gives (take length bytes.new)) };
}

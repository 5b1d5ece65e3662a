//! Making a datagram for an EEPROM, and putting it into a frame.
ghost use Rattle.std.specs.Prelude.{◌≡◌, ◌+◌, ◌/◌, ◌^◌, ◌<◌, ◌≤◌, ◌⊎◌, ◌∷◌, ◌++◌, [], length, IsTrue};
ghost use Rattle.ecat_frame.specs.Command.{code_of};
ghost use Rattle.ecat_frame.specs.Frame.{pdu, sent};
ghost use Rattle.ecat_frame.specs.declared.command.Command.TheVariants.{Fprd, Fpwr};
ghost use Rattle.esc_model.specs.Orders.{address_of};
ghost use Rattle.wire_frames.specs.Out.{sent_to};
ghost use Rattle.wire_frames.specs.Room.{AddsOne};
ghost use Rattle.wire_frames.specs.Sending.{InEeprom, IsForEeprom, OnlyEeprom};
ghost use Rattle.site_wire.specs.Orders.{command_of, datagram_of};

use crate::order::{LONGEST, Order};
use ecat_frame::{Command, Datagram, Frame, fp};
use esc_model::station_address;
use wire_frames::{FPWR, register_of};

impl Order {
    /// This datagram.
    #[tactic(auto, using(crate::proofs::Ordered::order_is))]
    pub(crate) fn of(asked: Datagram<'_>) -> Order
        requires eeprom { IsForEeprom (pdu asked) }
        requires fresh { asked.counter ≡ 0 }
        ensures { datagram_of result ≡ pdu asked.entry }
    {
        let length = asked.content.len();
        let mut content = [0u8; LONGEST];
        content[..length].copy_from_slice(asked.content);
        Order {
            is_write: asked.command.code() == FPWR,
            index: asked.index,
            address: asked.address,
            length,
            content,
        }
    }

    /// One that reads or writes registers of this slave, from `register` on.
    pub(crate) fn to(slave: u16, command: Command, register: u16, content: &[u8]) -> Order
        requires slave { slave < 64 }
        requires way { (command ≡ Fprd) ⊎ (command ≡ Fpwr) }
        requires inside { InEeprom register (length content.now) }
        ensures { datagram_of result ≡ sent command 0 (address_of slave register) content.now }
    {
        Order::of(Datagram {
            command,
            index: 0,
            address: fp(station_address(slave), register),
            content,
            counter: 0,
        })
    }

    /// Its command (ETG.1000.4).
    pub(crate) fn command(&self) -> Command
        ensures way { (result ≡ Fprd) ⊎ (result ≡ Fpwr) }
        ensures code { code_of result ≡ command_of self.now }
    {
        if self.is_write {
            Command::Fpwr
        } else {
            Command::Fprd
        }
    }

    /// The register from which on it reads or writes.
    pub(crate) fn register(&self) -> u16
        ensures { result ≡ self.now.address / 2 ^ 16 }
    {
        register_of(self.address) as u16
    }

    /// It, as a datagram.
    pub(crate) fn datagram(&self) -> Datagram<'_>
        ensures same { pdu result ≡ datagram_of self.now }
    {
        Datagram {
            command: self.command(),
            index: self.index,
            address: self.address,
            content: &self.content[..self.length],
            counter: 0,
        }
    }

    /// Puts it after the datagrams of a frame, to this address. Returns whether there was room.
    pub(crate) fn put_in(&self, frame: &mut Frame, address: u32) -> bool
        requires register { address / 2 ^ 16 ≡ self.now.address / 2 ^ 16 }
        requires only { OnlyEeprom frame.old }
        ensures only { OnlyEeprom frame.new }
        ensures put { IsTrue result → frame.new ≡ frame.old ++ sent_to (datagram_of self.now) address ∷ [] }
        ensures full { ¬ IsTrue result → frame.new ≡ frame.old }
        ensures adds { AddsOne self.now.length frame.old frame.new }
    {
        let content = &self.content[..self.length];
        match frame.push(self.command(), self.index, address, content) {
            Ok(()) => return true,
            Err(_) => return false,
        }
    }
}

//! Laws of the definitions. The functions here do nothing: the contract of each is the law.

ghost use Rattle.std.specs.Prelude.{◌≡◌, ℕ, ◌≤◌, List, length};
ghost use Rattle.std.specs.List.{AllByRecursion};
ghost use Rattle.ecat_frame.specs.Frame.{Pdu, Fits, IsFrame, spelling};
ghost use Rattle.ecat_frame.specs.Fault.{IsBadAt};

/// Bytes are a frame of at most one list of datagrams, or have at most one place of a first fault, and never both.
pub fn one_reading()
    ensures list { (bytes : List ℕ) (ds es : List Pdu) → IsFrame bytes ds → IsFrame bytes es → ds ≡ es }
    ensures place { (bytes : List ℕ) (a b : ℕ) → IsBadAt bytes a → IsBadAt bytes b → a ≡ b }
    ensures never_both { (bytes : List ℕ) (at : ℕ) (ds : List Pdu) → IsBadAt bytes at → IsFrame bytes ds → ⊥ }
{}

/// The canonical encoding of datagrams is a frame of them, if it has at most 1,500 bytes.
pub fn spelling_is_read()
    ensures { (ds : List Pdu) → AllByRecursion Fits ds → length (spelling ds) ≤ 1500 → IsFrame (spelling ds) ds }
{}

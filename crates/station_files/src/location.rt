//! Where names of files lead, and which of them lead to the same file.
ghost use Rattle.std.specs.Prelude.{◌≡◌, ◌↔◌, string_bytes, IfOk, IsTrue};
ghost use Rattle.station_files.specs.Locations.{AreOne, IsBeside, IsSame, Meets, place_of};

use std::alloc::{AllocError, Global};

/// What tells a file from all others: the device that holds it, and its number there.
#[derive(Clone, Copy, PartialEq, Eq)]
pub struct FileId {
    /// The number of the device.
    pub device: u64,
    /// The number of the file on its device.
    pub number: u64,
}

/// Where a name leads.
#[derive(Drop)]
pub struct Location {
    /// The name.
    pub name: String,
    /// The file there; `None` where there is none, or where the store doesn't number its files.
    pub id: Option<FileId>,
    /// The file's whole name, in which no link is left.
    pub path: String,
    /// The whole name of the new file while this one is replaced.
    pub beside: String,
    /// The file that has this name now; `None` as for `id`.
    pub beside_id: Option<FileId>,
}

impl Location {
    /// Where a name leads in a store whose names are whole, without links and without numbers of files.
    ///
    /// # Errors
    ///
    /// Memory was refused.
    pub fn of_name(alloc: Global, name: &str) -> Result<Location, AllocError>
        ensures { IfOk result (λ found. string_bytes found.name ≡ name.now) }
    {
        Ok(Location {
            name: String::from_str(alloc, name)?,
            id: None,
            path: String::from_str(alloc, name)?,
            beside: name_beside(alloc, name)?,
            beside_id: None,
        })
    }

    /// Whether both names are the same, or lead to the same file.
    pub fn is_same(&self, other: &Location) -> bool
        ensures { IsTrue result ↔ IsSame (place_of self.now) (place_of other.now) }
    {
        self.name.as_str() == other.name.as_str()
            || self.path.as_str() == other.path.as_str()
            || are_one(self.id, other.id)
    }

    /// Whether one of the two files would be lost where the other is written or replaced: they are the same, or one has the name that the
    /// other takes while it is replaced.
    pub fn meets(&self, other: &Location) -> bool
        ensures { IsTrue result ↔ Meets (place_of self.now) (place_of other.now) }
    {
        self.is_same(other) || self.is_beside(other) || other.is_beside(self)
    }

    /// Whether the other file has the name that this one takes while it is replaced.
    fn is_beside(&self, other: &Location) -> bool
        ensures { IsTrue result ↔ IsBeside (place_of self.now) (place_of other.now) }
    {
        self.beside.as_str() == other.path.as_str() || are_one(self.beside_id, other.id)
    }
}

/// Whether these are the same file, which is there.
fn are_one(one: Option<FileId>, other: Option<FileId>) -> bool
    ensures { IsTrue result ↔ AreOne one other }
{
    one.is_some() && one == other
}

/// The name of the new file while the file `name` is replaced: `.NAME.new` in the same folder.
///
/// # Errors
///
/// Memory was refused.
pub fn name_beside(alloc: Global, name: &str) -> Result<String, AllocError> {
    match name.rsplit_once('/') {
        Some((folder, last)) => format!(in alloc; "{folder}/.{last}.new"),
        None => format!(in alloc; ".{name}.new"),
    }
}

//! Laws of chains and of the contents of categories. The contract of each function is a theorem, and its body is empty.

ghost use Rattle.sii_cats.specs.Laws.{CutsAreUnique, ReadingsAgree, UniqueChain, UniqueContents};

/// Bytes have at most one reading as FMMU units, as sync managers, as PDOs, and as strings.
pub fn one_content()
    ensures { UniqueContents }
{}

/// Words have at most one chain. They are cut off at one header at most, and have no chain then.
pub fn one_chain()
    ensures unique { UniqueChain }
    ensures cut { CutsAreUnique }
{}

/// The readings that follow the code step by step give exactly what the grammars relate to the words.
pub fn readings()
    ensures { ReadingsAgree }
{}

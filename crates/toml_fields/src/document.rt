//! The document that the bytes of a file hold.
ghost use Rattle.std.specs.Prelude.{◌≡◌, Some, None, IfOk, IsErrOf};
ghost use Rattle.toml.specs.View.{table_view};
ghost use Rattle.toml_fields.specs.Document.{document_of};

use std::alloc::Global;
use toml::Table;

/// Why bytes give no document.
#[derive(Clone, Copy, Debug, PartialEq, Eq)]
pub enum DocumentFault {
    /// The bytes aren't UTF-8, or the text isn't TOML.
    NotToml,
    /// Memory ran out.
    NoMemory,
}

/// The top table of the document in the bytes.
#[tactic(auto, using(crate::proofs::Utf8::utf8))]
pub fn read_document(alloc: Global, bytes: &[u8]) -> Result<Table, DocumentFault>
    ensures ok { IfOk result (λ table. document_of bytes.now ≡ Some (table_view table)) }
    ensures not_toml { IsErrOf result DocumentFault.NotToml → document_of bytes.now ≡ None }
{
    match toml::table_from_slice(alloc, bytes) {
        Ok(table) => Ok(table),
        Err(fault) if fault.is_memory() => Err(DocumentFault::NoMemory),
        Err(_) => Err(DocumentFault::NotToml),
    }
}

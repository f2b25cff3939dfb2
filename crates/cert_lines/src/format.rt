//! The formats that are read.
ghost use Rattle.std.specs.Prelude.{◌≡◌};
ghost use Rattle.cert_lines.specs.Formats.{version_of, table_of, format_of};

/// What is read: a certificate, in either version, or a table file.
#[derive(Clone, Copy, Debug, PartialEq, Eq)]
pub enum TextKind {
    Certificate,
    Table,
}

/// A format, which the first line of a text names. Of certificates version 2 is written.
#[derive(Clone, Copy)]
pub enum Format {
    Version1,
    Version2,
    Table,
}

/// The format that the first line of a text of this kind names.
pub fn format_of(kind: TextKind, line: &[u8]) -> Option<Format>
    ensures { result ≡ format_of kind line.now }
{
    match kind {
        TextKind::Certificate => version_of(line),
        TextKind::Table => table_of(line),
    }
}

/// The version of a certificate that the line names.
fn version_of(line: &[u8]) -> Option<Format>
    ensures { result ≡ version_of line.now }
{
    if line == b"brake-cert 1".as_slice() {
        Some(Format::Version1)
    } else if line == b"brake-cert 2".as_slice() {
        Some(Format::Version2)
    } else {
        None
    }
}

/// The format of a table file, where the line names it.
fn table_of(line: &[u8]) -> Option<Format>
    ensures { result ≡ table_of line.now }
{
    if line == b"brake-table 1".as_slice() {
        Some(Format::Table)
    } else {
        None
    }
}

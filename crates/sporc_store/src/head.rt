//! The heads of files: that of a saved history, and that of a log's tail.

ghost use Rattle.std.specs.Prelude.{◌≡◌, ◌++◌};

use sporc_base::put_at;

// How many bytes a head has: four of the format, and the document's.
pub(crate) const HEAD_LEN: usize = 20;

// The head of a file of a document: the format and the document.
pub(crate) fn head_of(format: &[u8; 4], document: &[u8; 16]) -> [u8; HEAD_LEN]
    ensures { result ≡ format.now ++ document.now }
{
    let mut head = [0; HEAD_LEN];
    put_at(&mut head, 0, format);
    put_at(&mut head, 4, document);
    head
}

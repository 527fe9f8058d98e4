//! Numbers in a text.

ghost use Rattle.std.specs.Prelude.{decimal};
ghost use Rattle.journal_texts.specs.Words.{next_text};

use itoa::Buffer;
use journal_texts::sink::TextSink;

/// Writes the number.
pub(crate) fn put_number<W: TextSink>(out: &mut W, n: u64)
    ensures { W.puts out.old out.new (decimal n) }
{
    let mut buffer = Buffer::new();
    out.put(buffer.format(n).as_bytes());
}

/// Writes the number behind a comma.
pub(crate) fn put_next_number<W: TextSink>(out: &mut W, n: u64)
    ensures { W.puts out.old out.new (next_text decimal n) }
{
    out.put(b",");
    put_number(out, n);
}

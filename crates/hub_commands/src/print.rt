//! Prints texts to a sink.
ghost use Rattle.std.specs.Prelude.{OnOk, OnErr};
ghost use Rattle.hub_commands.specs.Import.{file_line};
ghost use Rattle.hub_commands.specs.Output.{Written, Lost};

use edi_base::{Sink, WriteFault, write_bytes};

/// Prints a text.
pub(crate) fn print<W: Sink>(text: &[u8], out: &mut W) -> Result<(), WriteFault>
    ensures ok { OnOk result
        (Written (W.contents out.old) (W.contents out.new) (W.failed out.old) (W.failed out.new)
        text.now) }
    ensures err { OnErr result (Lost (W.contents out.old) (W.contents out.new) (W.failed out.new) text.now) }
{
    write_bytes(text, out)
}

/// Prints the line of a file.
pub(crate) fn print_file_line<W: Sink>(name: &str, out: &mut W) -> Result<(), WriteFault>
    ensures ok { OnOk result
        (Written (W.contents out.old) (W.contents out.new) (W.failed out.old) (W.failed out.new)
        (file_line name.now)) }
    ensures err { OnErr result (Lost (W.contents out.old) (W.contents out.new) (W.failed out.new)
        (file_line name.now)) }
{
    print(b"file ", out)?;
    print(name.as_bytes(), out)?;
    print(b"\n", out)
}

// The worked examples of the definitions.
#![tactic(auto)]

ghost use Rattle.std.specs.Prelude.{◌≡◌};
ghost use Rattle.examples.specs.Examples.{image76, Examples};

// The log with output a.o, mtime 7 and the inputs a.c and ab.h. Every row of the table of examples holds.
pub fn first_log() -> [u8; 76]
    ensures bytes { result ≡ image76 }
    ensures rows { Examples }
{
    *b"# ninjadeps\n\x04\0\0\0\x08\0\0\0a.o\0\xff\xff\xff\xff\x08\0\0\0a.c\0\xfe\xff\xff\xff\x08\0\0\0ab.h\xfd\xff\xff\xff\x14\0\0\x80\0\0\0\0\x07\0\0\0\0\0\0\0\x01\0\0\0\x02\0\0\0"
}

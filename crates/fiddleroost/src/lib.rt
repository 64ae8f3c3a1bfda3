// The static library: what a program in C or Rust can call. include/fiddleroost.h says what such a caller owes.
#![tactic(auto)]

ghost use Rattle.std.specs.Prelude.{◌≡◌};
ghost use Rattle.model.specs.Limits.{text_most};
ghost use Rattle.replay.specs.Texts.{TextPost};

// How many bytes a caller lends for the text: a caller compares its own number with this one.
#[unsafe(no_mangle)]
pub extern "C" fn fiddleroost_text_most() -> usize
    ensures { result ≡ text_most }
{
    model::TEXT_MOST
}

// The text of a file's bytes, as `replay::text` writes it, and its length.
#[unsafe(no_mangle)]
pub extern "C" fn fiddleroost_text(file: &[u8], out: &mut [u8; model::TEXT_MOST]) -> usize
    ensures { TextPost file.now out.old out.new result }
{
    replay::text(file, out)
}

// Words at the end of a text, each after a space.
ghost use Rattle.std.specs.Prelude.{map};
ghost use Rattle.swarm_objects.specs.Writers.{Puts};
ghost use Rattle.script_writer.specs.Behind.{behind};

use std::alloc::AllocError;

/// Puts each word, with a space before it.
pub fn put_words(text: &mut String, words: &[&str]) -> Result<(), AllocError>
    ensures { Puts result text.old text.new (behind (map (λ w. w.now) words.now)) }
{
    for word in words {
        text.push_str(" ")?;
        text.push_str(word)?;
    }
    Ok(())
}

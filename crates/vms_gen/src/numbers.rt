ghost use Rattle.std.specs.Prelude.{◌≡◌, ◌∷◌, [], IfSome, map, string_bytes};
ghost use Rattle.vms_gen.specs.Numbers.{InRange, numbers_named, numbers_spelled};

use vms_text::{read_unsigned, read_within};

/// What a text is made from: the first state, 1 to 64 CPUs, and 1 to 900,000 lines.
#[derive(Clone, Copy, Debug, PartialEq, Eq)]
pub struct Numbers {
    pub seed: u64,
    pub cpus: u32,
    pub lines: u32,
}

/// The numbers that the words `gen SEED CPUS LINES` give.
pub fn numbers_named(words: &[String]) -> Option<Numbers>
    ensures named { result ≡ numbers_named (map (λ word. string_bytes word) words.now) }
    ensures in_range { IfSome result InRange }
{
    match words {
        [word, seed, cpus, lines] => read_words(
            word.as_str(),
            seed.as_str().as_bytes(),
            cpus.as_str().as_bytes(),
            lines.as_str().as_bytes(),
        ),
        _ => None,
    }
}

/// The numbers that four words give.
fn read_words(word: &str, seed: &[u8], cpus: &[u8], lines: &[u8]) -> Option<Numbers>
    ensures named { result ≡ numbers_named (word.now ∷ seed.now ∷ cpus.now ∷ lines.now ∷ []) }
    ensures in_range { IfSome result InRange }
{
    if word == "gen" {
        read_numbers(seed, cpus, lines)
    } else {
        None
    }
}

/// The numbers that three words spell.
fn read_numbers(seed: &[u8], cpus: &[u8], lines: &[u8]) -> Option<Numbers>
    ensures spelled { result ≡ numbers_spelled seed.now cpus.now lines.now }
    ensures in_range { IfSome result InRange }
{
    let seed = read_unsigned(seed)?;
    let cpus = read_within(cpus, 1, 64)? as u32;
    let lines = read_within(lines, 1, 900_000)? as u32;
    Some(Numbers { seed, cpus, lines })
}

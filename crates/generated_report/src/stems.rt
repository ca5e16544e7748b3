ghost use Rattle.std.specs.Prelude.{◌≡◌, ◌++◌, ◌/◌, ◌%◌, OnOk, codes, slice_index_or};
ghost use Rattle.generated_report.specs.Generated.{ends_in_o, stem, syllable};

use std::alloc::AllocError;

/// The vowel of a syllable.
fn vowel(number: u32) -> u8
    ensures { result ≡ slice_index_or (codes "aeiou") (number % 50 % 5) 0 }
{
    b"aeiou"[(number % 50 % 5) as usize]
}

/// Puts a syllable behind bytes. Syllables are counted round from 0 to 49.
fn add_syllable(number: u32, bytes: &mut Vec<u8>) -> Result<(), AllocError>
    ensures { OnOk result (bytes.new.items ≡ bytes.old.items ++ syllable number) }
{
    bytes.push(b"bdfgklmnpr"[(number % 50 / 5) as usize])?;
    bytes.push(vowel(number))?;
    Ok(())
}

/// Puts a stem behind bytes.
pub fn add_stem(number: u32, bytes: &mut Vec<u8>) -> Result<(), AllocError>
    ensures { OnOk result (bytes.new.items ≡ bytes.old.items ++ stem number) }
{
    add_syllable(number / 2500, bytes)?;
    add_syllable(number / 50, bytes)?;
    add_syllable(number, bytes)
}

/// Whether a stem ends in `o`.
pub fn ends_in_o(number: u32) -> bool
    ensures { result ≡ ends_in_o (stem number) }
{
    vowel(number) == b'o'
}

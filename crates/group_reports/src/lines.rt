//! Lines of reports.
ghost use Rattle.std.specs.Prelude.{◌≡◌, ◌++◌, flat_map, map, OnOk};
ghost use Rattle.group_reports.specs.Reports as spec;

use lei_values::NoMemory;

/// Appends a line with a first word and others.
pub fn put_line(out: &mut Vec<u8>, first: &str, others: &[&str]) -> Result<(), NoMemory>
    ensures { OnOk result
        (out.new.items ≡ out.old.items ++ spec.report_line first.now (map (λ word. word.now) others.now)) }
{
    out.extend_from_slice(first.as_bytes())?;
    put_words(out, others)?;
    out.push(b'\n')?;
    Ok(())
}

// Appends words, each preceded by a space.
fn put_words(out: &mut Vec<u8>, words: &[&str]) -> Result<(), NoMemory>
    ensures { OnOk result
        (out.new.items ≡ out.old.items ++ flat_map spec.after_space (map (λ word. word.now) words.now)) }
{
    for word in words {
        put_word(out, word)?;
    }
    Ok(())
}

// Appends a word, preceded by a space.
fn put_word(out: &mut Vec<u8>, word: &str) -> Result<(), NoMemory>
    ensures { OnOk result (out.new.items ≡ out.old.items ++ spec.after_space word.now) }
{
    out.push(b' ')?;
    out.extend_from_slice(word.as_bytes())?;
    Ok(())
}

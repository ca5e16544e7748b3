ghost use Rattle.std.specs.Prelude.{◌≡◌};
ghost use Rattle.reply_meaning.specs.Replies.{without_return};

/// The line without a carriage return at its end.
pub fn without_return(line: &[u8]) -> &[u8]
    ensures { result.now ≡ without_return line.now }
{
    let Some((last, front)) = line.split_last() else {
        return line;
    };
    if *last == b'\r' { front } else { line }
}

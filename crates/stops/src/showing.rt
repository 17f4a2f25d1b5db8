// Tells of an input how its text ends.
ghost use Rattle.std.specs.Prelude.{◌≡◌, ◌-◌, ◌≤◌, length, drop};

// How many lines a text has: each ends with a newline.
fn count_lines(text: &[u8]) -> usize {
    text.iter().filter(|&&byte| byte == b'\n').count()
}

// The last line: what comes after the last newline that has a byte after it, or the whole text.
fn last_line(text: &[u8]) -> &[u8]
    ensures within { length result.now ≤ length text.now }
    ensures end { result.now ≡ drop (length text.now - length result.now) text.now }
{
    let Some((_, front)) = text.split_last() else {
        return text;
    };
    match front.iter().rposition(|&byte| byte == b'\n') {
        Some(newline) => &text[newline + 1..],
        None => text,
    }
}

// Runs an input, and tells in a line of the case, its bytes, how many lines its text has, and the last of them.
pub(crate) fn show(rt: &impl Print, name: &str, input: &[u8]) {
    // room for every run, as `lines::run` asks
    let mut out = [0u8; lines::ROOM];
    let n = lines::run(input, &mut out);
    let text = &out[..n];
    let _ = print!(rt;
        "{name}: {} bytes, {} lines, ",
        input.len(),
        count_lines(text)
    );
    let _ = rt.write_all(last_line(text));
}

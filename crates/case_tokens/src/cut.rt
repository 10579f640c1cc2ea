// The fields of a line: what stands between its parentheses, cut at each space. A bracket's name and token are two fields, as `(arr` and `100)`.

// What stands between the parentheses that a line begins and ends with.
pub fn inside(line: &[u8]) -> Option<&[u8]> {
    line.strip_prefix(b"(")?.strip_suffix(b")")
}

// A field without the parenthesis that ends it.
pub fn closed(field: &[u8]) -> Option<&[u8]> {
    field.strip_suffix(b")")
}

// Field i; nothing where there are fewer.
pub fn field(s: &[u8], i: usize) -> &[u8] {
    s.split(|b| *b == b' ').nth(i).unwrap_or(&s[..0])
}

// How many fields there are.
pub fn fields(s: &[u8]) -> usize {
    s.split(|b| *b == b' ').count()
}

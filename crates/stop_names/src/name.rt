// A stop by its name. Each function is handed what is found so far, and looks for more only where that is nothing.
ghost use Rattle.std.specs.Prelude.{◌≤◌, ◌≡◌, length};
ghost use Rattle.ids.specs.First.{or_else};
ghost use Rattle.stop_keys.specs.Names.{first_stop, plain_keys, text_keys, named_stop};

use stop_keys::StopIds;

// Or else by the keys of digits that do not begin with the feed.
fn or_plain(stops: &StopIds, found: Option<usize>, d: &[u8]) -> Option<usize>
    ensures { result ≡ or_else found (first_stop stops.now.lent.bytes.now stops.now.lent.words.now stops.now.lookup (plain_keys d.now)) }
{
    let first = stops.or_stop(found, b"", b"IDFM:", d);
    let second = stops.or_stop(first, b"", b"IDFM:monomodalStopPlace:", d);
    let third = stops.or_stop(second, b"", b"StopPoint:", d);
    let fourth = stops.or_stop(third, b"", b"", d);
    let fifth = stops.or_stop(fourth, b"idfm:", b"IDFM:monomodalStopPlace:", d);
    stops.or_stop(fifth, b"idfm:", b"IDFM:", d)
}

// Or else by the text, and the digits in it.
fn or_text(stops: &StopIds, found: Option<usize>, feed: &[u8], text: &[u8]) -> Option<usize>
    ensures { result ≡ or_else found (first_stop stops.now.lent.bytes.now stops.now.lent.words.now stops.now.lookup (text_keys feed.now text.now)) }
{
    let first = stops.or_stop(found, b"", b"", text);
    let d = stop_digits::stop_digits(text);
    if d.len() == 0 {
        return first;
    }
    let second = stops.or_feed(first, feed, d);
    or_plain(stops, second, d)
}

// The stop that a name stands for: by the name, or else, where that has no ':', by the feed, ':' and the name.
pub fn named_stop(stops: &StopIds, feed: &[u8], s: &[u8]) -> Option<usize>
    requires feed_len_bound { length feed.now ≤ 96 }
    requires s_len_bound { length s.now ≤ 96 }
    ensures { result ≡ named_stop stops.now.lent.bytes.now stops.now.lent.words.now stops.now.lookup feed.now s.now }
{
    let found = or_text(stops, None, feed, s);
    if texts::contains(s, b":") {
        return found;
    }
    let mut buf = [0u8; 193];
    let i = keys::put(&mut buf, 0, feed);
    let j = keys::put(&mut buf, i, b":");
    let n = keys::put(&mut buf, j, s);
    or_text(stops, found, feed, &buf[..n])
}

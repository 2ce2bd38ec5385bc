//! A scanner of arrays and of whole numbers, over the tokens of JSON. It passes what it knows, and
//! says nothing of any other text.
ghost use Rattle.std.specs.Prelude.{◌≡◌, ◌<◌, ◌^◌, ◌∷◌, [], IfSome, IsTrue, decimal, length, slice_index, true};
ghost use Rattle.json.specs.Token.{begin_array, end_array, number};
ghost use Rattle.json.specs.Word.{is_space, ends_word};
ghost use Rattle.json.specs.Lex.{after_value, between, lex, may_begin, may_close, punctuate, token, tokens};
ghost use Rattle.stark_trace_json.specs.Scanned.{ahead, place_of};

/// Where in an array a scanner stands.
#[derive(Clone, Copy, Debug)]
pub(crate) enum Place {
    /// Behind the bracket that opens it, or before the whole text.
    Fresh,
    /// Behind one of its items, with no comma.
    AfterValue,
    /// Behind a comma.
    AfterComma,
}

impl Place {
    /// Whether an item may begin here.
    fn may_begin(self) -> bool
        ensures { result ≡ may_begin (place_of self) }
    {
        matches!(self, Place::Fresh | Place::AfterComma)
    }

    /// Whether the array may end here.
    fn may_close(self) -> bool
        ensures { result ≡ may_close (place_of self) }
    {
        matches!(self, Place::Fresh | Place::AfterValue)
    }
}

/// The text that is still to be scanned, and where it begins.
#[derive(Clone, Copy, Debug)]
pub(crate) struct Scanner<'a> {
    text: &'a [u8],
    place: Place,
}

fn is_space(byte: u8) -> bool
    ensures { result ≡ is_space byte }
{
    byte == b' ' || byte == b'\t' || byte == b'\n' || byte == b'\r'
}

/// The text behind its first spaces.
fn skip_spaces(text: &[u8]) -> &[u8]
    ensures { lex between result.now ≡ lex between text.now }
{
    for (at, byte) in text.iter().enumerate() {
        if !is_space(*byte) {
            return &text[at..];
        }
    }
    &text[text.len()..]
}

/// The text behind this byte, if it begins with it.
fn behind(text: &[u8], byte: u8) -> Option<&[u8]>
    ensures { IfSome result (λ rest. text.now ≡ byte ∷ rest.now) }
{
    match text.split_first() {
        Some((first, rest)) if *first == byte => Some(rest),
        _ => None,
    }
}

/// Whether a comma, a closing bracket or a space is next, before each of which a number may end.
fn ends_number(text: &[u8]) -> bool
    ensures { IsTrue result → ends_word text.now ≡ true }
{
    match text.split_first() {
        Some((first, _)) => *first == b',' || *first == b']' || is_space(*first),
        None => false,
    }
}

/// Whether there are digits, of which the first is no zero before others.
fn has_no_leading_zero(digits: &[u8]) -> bool
    ensures some { IsTrue result → 0 < length digits.now }
    ensures leading { IsTrue result → slice_index digits.now 0 ≡ 48 → length digits.now ≡ 1 }
{
    digits.len() == 1 || (digits.len() > 1 && digits[0] != b'0')
}

/// The whole number at the front of a text, in digits alone and with no leading zero, and the text
/// behind it.
fn split_number(text: &[u8]) -> Option<(u64, &[u8])>
    ensures passed { IfSome result (λ read. lex between text.now
        ≡ token (number (decimal read.0)) ∷ lex between read.1.now) }
    ensures fits { IfSome result (λ read. read.0 < 2 ^ 64) }
{
    let mut value: u64 = 0;
    let mut at = 0;
    while at < text.len() && text[at].is_ascii_digit() {
        if value > (u64::MAX - 9) / 10 {
            return None;
        }
        value = 10 * value + u64::from(text[at] - b'0');
        at += 1;
    }
    let (digits, rest) = text.split_at(at);
    if !has_no_leading_zero(digits) {
        return None;
    }
    if !ends_number(rest) {
        return None;
    }
    Some((value, rest))
}

/// Behind an item of an array, and the comma that may follow it.
fn after_item(text: &[u8]) -> Scanner<'_>
    ensures { ahead result ≡ punctuate after_value (lex between text.now) }
{
    let text = skip_spaces(text);
    match behind(text, b',') {
        Some(rest) => Scanner {
            text: skip_spaces(rest),
            place: Place::AfterComma,
        },
        None => Scanner {
            text,
            place: Place::AfterValue,
        },
    }
}

impl<'a> Scanner<'a> {
    /// Before a whole text.
    pub(crate) fn new(text: &'a [u8]) -> Scanner<'a>
        ensures { ahead result ≡ tokens text.now }
    {
        Scanner {
            text: skip_spaces(text),
            place: Place::Fresh,
        }
    }

    /// How many bytes are left.
    pub(crate) fn len(self) -> usize {
        self.text.len()
    }

    /// Behind the bracket that opens an array, if one is next.
    pub(crate) fn open(self) -> Option<Scanner<'a>>
        ensures { IfSome result (λ next. ahead self.entry ≡ begin_array ∷ ahead next) }
    {
        if !self.place.may_begin() {
            return None;
        }
        let Some(rest) = behind(self.text, b'[') else {
            return None;
        };
        Some(Scanner {
            text: skip_spaces(rest),
            place: Place::Fresh,
        })
    }

    /// Behind the bracket that closes an array, if one is next.
    pub(crate) fn close(self) -> Option<Scanner<'a>>
        ensures { IfSome result (λ next. ahead self.entry ≡ end_array ∷ ahead next) }
    {
        if !self.place.may_close() {
            return None;
        }
        let Some(rest) = behind(self.text, b']') else {
            return None;
        };
        Some(after_item(rest))
    }

    /// The whole number that is next, and behind it.
    pub(crate) fn number(self) -> Option<(u64, Scanner<'a>)>
        ensures passed { IfSome result (λ read.
            ahead self.entry ≡ number (decimal read.0) ∷ ahead read.1) }
        ensures fits { IfSome result (λ read. read.0 < 2 ^ 64) }
    {
        if !self.place.may_begin() {
            return None;
        }
        let Some((value, rest)) = split_number(self.text) else {
            return None;
        };
        Some((value, after_item(rest)))
    }

    /// Whether nothing is left.
    pub(crate) fn is_at_end(self) -> bool
        ensures { IsTrue result → ahead self.entry ≡ [] }
    {
        self.place.may_close() && self.text.is_empty()
    }
}

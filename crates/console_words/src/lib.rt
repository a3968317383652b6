// Text as bytes: where a line ends, the words of a line, a word as a decimal number.
#![tactic(auto)]

ghost use Rattle.std.specs.Prelude.{◌≡◌, ℕ, ◌≤◌, ◌<◌, ◌==◌, length, get_or, take, drop, not, nat_lt, nat_le, take_while};
ghost use Rattle.console_words.specs.Text.{after_blanks, after_word, word, nth_word, number_of};

// How many bytes stand before the first `b`.
fn before(s: &[u8], b: u8) -> usize
    ensures { result ≡ length (take_while (λ x. not (x == b)) s.now) }
{
    s.iter().take_while(|x| **x != b).count()
}

// The first place from `at` on where `b` stands; the length where there is none.
pub fn find(s: &[u8], at: usize, b: u8) -> usize
    requires { at ≤ length s.now }
    ensures lower_bound { (at ≤ result) × (result ≤ length s.now) }
    ensures by_index { (k : ℕ) → at ≤ k → k < result → get_or s.now k 0 ≡ b → ⊥ }
    ensures result_value { result < length s.now → get_or s.now result 0 ≡ b }
{
    at + before(&s[at..], b)
}

// How many blanks stand before the first word.
fn blanks(s: &[u8]) -> usize
    ensures { result ≡ length (take_while (λ b. nat_le b 32) s.now) }
{
    s.iter().take_while(|b| **b <= 32).count()
}

// The first place from `at` on that is no blank; the length where there is none.
pub fn skip_blanks(s: &[u8], at: usize) -> usize
    requires { at ≤ length s.now }
    ensures { (at ≤ result) × (result ≤ length s.now) × (drop result s.now ≡ after_blanks (drop at s.now)) }
{
    at + blanks(&s[at..])
}

// The text from its first word on.
fn from_word(s: &[u8]) -> &[u8]
    ensures { result.now ≡ after_blanks s.now }
{
    &s[blanks(s)..]
}

// How many bytes stand before the first blank.
fn word_length(s: &[u8]) -> usize
    ensures { result ≡ length (take_while (λ b. nat_lt 32 b) s.now) }
{
    s.iter().take_while(|b| **b > 32).count()
}

// The word with which a text begins, and what follows it.
fn split_word(s: &[u8]) -> (&[u8], &[u8])
    ensures { (result.0.now ≡ word s.now) × (result.1.now ≡ after_word s.now) }
{
    s.split_at(word_length(s))
}

// The word with k words before it; empty where the text has no more words.
pub fn nth(s: &[u8], k: usize) -> &[u8]
    ensures { result.now ≡ nth_word k s.now }
{
    let mut rest = s;
    for _ in 0..k {
        rest = split_word(from_word(rest)).1;
    }
    split_word(from_word(rest)).0
}

// The number that a word of decimal digits writes. None: no digits, another byte, or more than 32 bits hold.
pub fn number(s: &[u8]) -> Option<u32>
    ensures { result ≡ number_of s.now }
{
    if s.is_empty() {
        return None;
    }
    let mut n: u64 = 0;
    for b in s {
        if *b < b'0' || b'9' < *b {
            return None;
        }
        n = 10 * n + u64::from(*b - b'0');
        if u64::from(u32::MAX) < n {
            return None;
        }
    }
    Some(n as u32)
}

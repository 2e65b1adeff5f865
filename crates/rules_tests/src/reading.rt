// Whole rule texts: what is read, and which fault comes first.
use rules::refusal::Refusal;
use rules::rule::Rule;
use rules::signals::SignalList;

// The size of the formula read, or the refusal.
fn read(list: &[u8], text: &[u8]) -> Result<usize, Refusal> {
    Rule::read(SignalList::lenient(list), text).map(|rule| rule.size())
}

#[test]
fn names_end_where_letters_and_digits_end(rt: HostRuntime) {
    assert_eq!(rt; read(b"p q", b"pq"), Err(Refusal::Signal(0)));
    assert_eq!(rt; read(b"p q", b"p1"), Err(Refusal::Signal(0)));
    assert_eq!(rt; read(b"abcdefgh", b"abcdefghi"), Err(Refusal::Signal(0)));
    assert_eq!(rt; read(b"p q", b"pT"), Err(Refusal::Form(1)));
}

#[test]
fn some_bytes_start_no_token(rt: HostRuntime) {
    assert_eq!(rt; read(b"p", b"1"), Err(Refusal::Letter(0)));
    assert_eq!(rt; read(b"p", b"B"), Err(Refusal::Letter(0)));
    assert_eq!(rt; read(b"p", b"\tp"), Err(Refusal::Letter(0)));
    assert_eq!(rt; read(b"p", b"p\r"), Err(Refusal::Letter(1)));
    assert_eq!(rt; read(b"p", b"\0"), Err(Refusal::Letter(0)));
    assert_eq!(rt; read(b"p", b"\x80"), Err(Refusal::Letter(0)));
    assert_eq!(rt; read(b"p", b" \np\n "), Ok(1));
}

#[test]
fn the_first_fault_counts(rt: HostRuntime) {
    assert_eq!(rt; read(b"p q", b"p $"), Err(Refusal::Letter(2)));
    assert_eq!(rt; read(b"p q", b"p zz"), Err(Refusal::Signal(2)));
    assert_eq!(rt; read(b"p q", b"p q"), Err(Refusal::Form(2)));
    assert_eq!(rt; read(b"p q", b"p q $"), Err(Refusal::Form(2)));
}

#[test]
fn what_is_missing_is_missed_at_the_end(rt: HostRuntime) {
    assert_eq!(rt; read(b"p q", b"(p& "), Err(Refusal::Form(4)));
    assert_eq!(rt; read(b"p q", b"  "), Err(Refusal::Form(2)));
    assert_eq!(rt; read(b"p q", b"A"), Err(Refusal::Form(1)));
}

#[test]
fn brackets_stand_around_two(rt: HostRuntime) {
    assert_eq!(rt; read(b"p", b"(p)"), Err(Refusal::Form(2)));
    assert_eq!(rt; read(b"p", b"()"), Err(Refusal::Form(1)));
    assert_eq!(rt; read(b"p", b"p)"), Err(Refusal::Form(1)));
    assert_eq!(rt; read(b"p", b"p&p"), Err(Refusal::Form(1)));
    assert_eq!(rt; read(b"p", b"(p&p&p)"), Err(Refusal::Form(4)));
    assert_eq!(rt; read(b"p", b"((p&p)&p)"), Ok(5));
}

#[test]
fn the_length_comes_first(rt: HostRuntime) {
    assert_eq!(rt; read(b"p", b""), Err(Refusal::Length));
    assert_eq!(rt; read(b"p", &[b'$'; 513]), Err(Refusal::Length));
    assert_eq!(rt; read(b"p", &[b'$'; 512]), Err(Refusal::Letter(0)));
    assert_eq!(rt; read(b"p", &[b' '; 512]), Err(Refusal::Form(512)));
}

#[test]
fn deep_texts_are_read(rt: HostRuntime) {
    let mut text = [b'~'; 512];
    assert_eq!(rt; read(b"p", &text), Err(Refusal::Form(512)));
    text[511] = b'p';
    assert_eq!(rt; read(b"p", &text), Ok(512));
    assert_eq!(rt; read(b"p", &[b'('; 512]), Err(Refusal::Form(512)));
}

// That the size fits is proved here from what every `Rule` says of itself.
fn narrow_size(rule: &Rule) -> u16 {
    rule.size() as u16
}

// The size in two bytes, or the refusal.
fn read_narrow(list: &[u8], text: &[u8]) -> Result<u16, Refusal> {
    Rule::read(SignalList::lenient(list), text).map(|rule| narrow_size(&rule))
}

#[test]
fn a_size_fits_two_bytes(rt: HostRuntime) {
    let mut text = [b'~'; 512];
    text[511] = b'p';
    assert_eq!(rt; read_narrow(b"p", &text), Ok(512));
}

#[test]
fn an_unlawful_list_has_no_names(rt: HostRuntime) {
    assert_eq!(rt; read(b"p  q", b"p"), Err(Refusal::Signal(0)));
    assert_eq!(rt; read(b"p  q", b"(T|F)"), Ok(3));
}

#[test]
fn a_workshop_rule(rt: HostRuntime) {
    assert_eq!(rt; read(b"coated cured", b"A(coated>Ecured)"), Ok(5));
}

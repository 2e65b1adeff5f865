// Rules at the limits on lines and choice lines.
use rules::refusal::Refusal;
use rules::signals::SignalList;
use tables::limits::NormalRule;
use tables::question::Question;

// The lines and choice lines of a rule's normal form, or the refusal.
fn measured(text: &[u8]) -> Result<(usize, usize), Refusal> {
    let rule = NormalRule::read(SignalList::lenient(b"p q"), text)?;
    let table = Question::keep(&rule).table;
    Ok((table.lines().len(), table.choices()))
}

#[test]
fn sixty_lines_and_no_more(rt: HostRuntime) {
    let mut text = [b'N'; 61];
    text[60] = b'p';
    assert!(rt; measured(&text[1..61]) == Ok((60, 0)));
    assert!(rt; measured(&text) == Err(Refusal::Lines));
}

#[test]
fn eight_choice_lines_and_no_more(rt: HostRuntime) {
    assert!(rt; measured(b"EEEEEEEEp") == Ok((9, 8)));
    assert!(rt; measured(b"EEEEEEEEEp") == Err(Refusal::Choices));
    assert!(rt; measured(b"AAAAAAAAp") == Ok((9, 0)));
    assert!(rt; measured(b"AAAAAAAAAp") == Err(Refusal::Choices));
}

#[test]
fn twenty_nested_equivalences(rt: HostRuntime) {
    assert!(rt;
        measured(
            b"((((((((((((((((((((p=q)=p)=q)=p)=q)=p)=q)=p)=q)=p)=q)=p)=q)=p)=q)=p)=q)=p)=q)=p)",
        ) == Err(Refusal::Lines)
    );
}

#[test]
fn nothing_is_simplified(rt: HostRuntime) {
    assert!(rt; measured(b"(p&T)") == Ok((3, 0)));
    assert!(rt; measured(b"~p") == Ok((1, 0)));
    assert!(rt; measured(b"~~(p>q)") == Ok((3, 1)));
    assert!(rt; measured(b"(p=p)") == Ok((5, 1)));
}

// Questions from texts: their lines, and the order of refusals.
use rules::refusal::Refusal;
use tables::line::Line;
use tables::question::Question;
use tables::table::Table;

// Does the question have exactly these lines?
fn has_lines(x: &[u8], y: &[u8], lines: &[Line]) -> bool {
    Question::read_strictly(b"p q", x, y).is_ok_and(|question| question.table.lines() == lines)
}

// Is the question refused so?
fn is_refused(list: &[u8], x: &[u8], y: &[u8], refusal: Refusal) -> bool {
    Question::read_strictly(list, x, y).is_err_and(|found| found == refusal)
}

#[test]
fn left_right_itself(rt: HostRuntime) {
    let p = Line::Literal(0, true);
    let not_p = Line::Literal(0, false);
    let q = Line::Literal(1, true);
    let not_q = Line::Literal(1, false);
    assert!(rt;
        has_lines(
            b"(p=q)",
            b"",
            &[
                p,
                q,
                Line::And(0, 1),
                not_p,
                not_q,
                Line::And(3, 4),
                Line::Or(2, 5),
            ],
        )
    );
    assert!(rt;
        has_lines(
            b"",
            b"(p=q)",
            &[
                not_p,
                not_q,
                Line::Or(0, 1),
                p,
                q,
                Line::Or(3, 4),
                Line::And(2, 5),
            ],
        )
    );
    assert!(rt; has_lines(b"p", b"~p", &[p, Line::And(0, 0)]));
    assert!(rt; has_lines(b"Ap", b"p", &[p, Line::Always(0), not_p, Line::And(1, 2)]));
}

#[test]
fn the_list_then_x_then_y(rt: HostRuntime) {
    assert!(rt; is_refused(b"p  q", b"$", b"$", Refusal::List));
    assert!(rt; is_refused(b"p q", b"", b"", Refusal::Length));
    assert!(rt; is_refused(b"p q", b"EEEEEEEEEp", b"$", Refusal::Choices));
    assert!(rt; is_refused(b"p q", b"p", b"(q", Refusal::Form(2)));
    assert!(rt; is_refused(b"p q", b"(p", b"$", Refusal::Form(2)));
}

#[test]
fn only_lawful_lines_are_a_table(rt: HostRuntime) {
    let p = Line::Literal(0, true);
    assert!(rt; Table::from_lines(&[]).is_none());
    assert!(rt; Table::from_lines(&[p, p]).is_none());
    assert!(rt; Table::from_lines(&[Line::Always(0)]).is_none());
    assert!(rt; Table::from_lines(&[p, Line::Or(1, 0)]).is_none());
    assert!(rt; Table::from_lines(&[p, Line::Always(0)]).is_some());
}

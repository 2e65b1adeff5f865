use super::explored::{explore, successors};
use std::test::Fail;
use tables::line::Line;

// (AEp & AEq): nine nodes, of which three are ω-nodes; each ω-node leads where the initial node does
#[test]
fn nine_nodes(rt: HostRuntime) -> Result<(), Fail> {
    let lines = [
        Line::Literal(0, true),
        Line::Eventually(0),
        Line::Always(1),
        Line::Literal(1, true),
        Line::Eventually(3),
        Line::Always(4),
        Line::And(2, 5),
    ];
    let Some(found) = explore(&lines) else {
        return Err(Fail::new("more than 16 nodes"));
    };
    assert_eq!(rt; found.count, 9);
    assert_eq!(rt; successors(&found, 0), 0b1_1110);
    assert_eq!(rt; successors(&found, 1), 0b1_1110);
    assert_eq!(rt; successors(&found, 2), 0b110_0110);
    assert_eq!(rt; successors(&found, 3), 0b1_1000_1010);
    assert_eq!(rt; successors(&found, 5), 0b1_1110);
    assert_eq!(rt; successors(&found, 7), 0b1_1110);
    Ok(())
}

// (AEp & EA~p): six nodes; the only ω-node does not reach itself
#[test]
fn six_nodes(rt: HostRuntime) -> Result<(), Fail> {
    let lines = [
        Line::Literal(0, true),
        Line::Eventually(0),
        Line::Always(1),
        Line::Literal(0, false),
        Line::Always(3),
        Line::Eventually(4),
        Line::And(2, 5),
    ];
    let Some(found) = explore(&lines) else {
        return Err(Fail::new("more than 16 nodes"));
    };
    assert_eq!(rt; found.count, 6);
    assert_eq!(rt; successors(&found, 0), 0b1110);
    assert_eq!(rt; successors(&found, 1), 0b10);
    Ok(())
}

// (Ep & A~p): a cycle that is no ω-loop
#[test]
fn a_cycle_alone(rt: HostRuntime) -> Result<(), Fail> {
    let lines = [
        Line::Literal(0, true),
        Line::Eventually(0),
        Line::Literal(0, false),
        Line::Always(2),
        Line::And(1, 3),
    ];
    let Some(found) = explore(&lines) else {
        return Err(Fail::new("more than 16 nodes"));
    };
    assert_eq!(rt; found.count, 2);
    assert_eq!(rt; successors(&found, 1), 0b10);
    assert!(rt; !found.outline.is_omega(found.nodes[1]));
    Ok(())
}

//! Seats of a board on one thread.
use claim_board::Board;
use std::test::Fail;

#[test]
fn a_look_sees_what_another_seat_posted(rt: HostRuntime) -> Result<(), Fail> {
    let (board, mut first) = Board::new(rt.alloc(), 100, 10)?;
    let mut second = board.split(&mut first);
    assert_eq!(rt; board.claim(&mut first), 0);
    assert_eq!(rt; board.claim(&mut second), 1);
    assert_eq!(rt; board.post(&mut first, 5), 100);
    assert_eq!(rt; board.look(&mut second), 5);
    Ok(())
}

// Made for no number that meets, a board hands out each block once.
#[test]
fn a_board_may_be_made_for_no_number(rt: HostRuntime) -> Result<(), Fail> {
    let (board, mut seat) = Board::new(rt.alloc(), 5, 3)?;
    assert_eq!(rt; board.claim(&mut seat), 0);
    assert_eq!(rt; board.claim(&mut seat), 1);
    assert_eq!(rt; board.claim(&mut seat), 2);
    assert_eq!(rt; board.close(seat), 5);
    Ok(())
}

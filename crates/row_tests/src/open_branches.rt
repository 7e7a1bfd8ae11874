//! Levels of unsettled outcomes.

use cc_base::{NoMemory, Outcome};
use path_tree::Tree;

#[test]
fn goes_down_and_up(rt: HostRuntime) -> Result<(), NoMemory> {
    let mut tree = Tree::new(rt.alloc(), 1)?;
    tree.push(&[Outcome::False, Outcome::True]);
    tree.settle(Outcome::True);
    tree.push(&[Outcome::Zero]);
    assert_eq!(rt; tree.next_open(), Some(Outcome::Zero));
    assert_eq!(rt; (tree.live(), tree.depth()), (2, 2));
    tree.settle(Outcome::Zero);
    assert_eq!(rt; tree.next_open(), None);
    tree.release();
    assert_eq!(rt; tree.next_open(), Some(Outcome::False));
    Ok(())
}

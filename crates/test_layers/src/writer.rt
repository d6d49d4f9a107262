//! Certificates that are written.
ghost use Rattle.std.specs.Prelude.{◌≡◌, [], ◌∷◌};

use cert_text::{CycleNumbers, Tree, begin_ob, end_ob, write_end, write_header};
use fn_rules::{Level, ObName};
use ot_model::Kind;
use std::alloc::AllocError;
use std::test::Fail;

#[test]
fn a_certificate_is_written_part_by_part(rt: HostRuntime) -> Result<(), Fail> {
    let alloc = rt.alloc();
    let name = ObName::Pair(Kind::Ins, Kind::Upd);
    let mut front = Vec::new(alloc);
    write_header(&[name], Level::Tp1, &mut front)?;
    let mut tree = begin_ob(name, front)?;
    tree.push_holds()?;
    let mut out = end_ob(tree)?;
    write_end(&mut out)?;
    assert_eq!(rt;
        out.as_slice(),
        b"otcert 2 tp1\nob ins upd\n.\nend\n".as_slice()
    );
    Ok(())
}

fn push_tokens(tree: &mut Tree) -> Result<(), AllocError> {
    tree.push_ask()?;
    tree.push_cycle(&[11, 4])?;
    tree.push_cycle(&[4_294_967_295])?;
    tree.push_cycle(&[100, 99_999, 0])?;
    tree.push_holds()
}

#[test]
fn a_tree_is_written_token_by_token(rt: HostRuntime) {
    let mut tree = Tree::new(rt.alloc());
    assert!(rt; push_tokens(&mut tree).is_ok());
    assert!(rt; tree.as_bytes() == b"?x11,4;x4294967295;x100,99999,0;.".as_slice());
}

// A number, where it has not come yet.
#[derive(Drop)]
struct Once {
    number: Option<u32>,
}

impl CycleNumbers for Once {
    ghost use Rattle.std.specs.Option.{option_map_or};

    ghost left = { λ once. option_map_or (λ n. n ∷ []) once.number [] };

    fn next(&mut self) -> Option<u32> {
        let number = self.number;
        self.number = None;
        number
    }
}

// Whether a question with a cycle of these two numbers is put, and the bytes are then those.
fn is_put(tree: &mut Tree, number: u32, other: Option<u32>, bytes: &[u8]) -> bool {
    tree.put_asked(number, Once { number: other }) && tree.as_bytes() == bytes
}

#[test]
fn a_question_is_put_with_its_cycle_where_there_is_room(rt: HostRuntime) -> Result<(), AllocError> {
    let mut narrow = Tree::new(rt.alloc());
    assert!(rt; !is_put(&mut narrow, 7, None, b"") && narrow.as_bytes().is_empty());
    let mut tree = Tree::behind(Vec::with_capacity(rt.alloc(), 1_000)?);
    assert!(rt; is_put(&mut tree, 10, Some(99_999), b"?x10,99999;"));
    Ok(())
}

fn push_questions(tree: &mut Tree) -> Result<(), AllocError> {
    let other = Some(4_321);
    tree.push_asked(7, Once { number: None })?;
    tree.push_asked(12, Once { number: other })?;
    tree.push_holds()
}

#[test]
fn a_question_is_written_with_the_cycle_behind_it(rt: HostRuntime) {
    let mut tree = Tree::new(rt.alloc());
    assert!(rt; push_questions(&mut tree).is_ok());
    assert!(rt; tree.as_bytes() == b"?x7;?x12,4321;.".as_slice());
}

// The kinds of an engine's codes, and the tails that are one code longer.
ghost use Rattle.std.specs.Prelude.{◌≡◌, ◌<◌, ◌≤◌, ◌++◌, map, length, IfOk, OnOk, MatchOption, vec_len};
ghost use Rattle.syntax.specs.Tree.{language};
ghost use Rattle.distance.specs.Found.{fronted, kinds};
ghost use Rattle.shift.specs.Led.{AllLed, all_codes, led, longer_by_one, words};

use crate::tail::Tail;
use single::SingleStep;
use std::alloc::{AllocError, Global};

/// The kinds of an engine's codes, each by its least code.
#[derive(Drop)]
pub struct Kinds<'a> {
    engine: &'a SingleStep,
    codes: Vec<u8>,
    ghost all: { codes.items ≡ kinds (language engine.now.expression.tree) (all_codes (language engine.now.expression.tree)) },
}

impl<'a> Kinds<'a> {
    // A code is the least of its kind if no code below it is held by the same positions.
    pub(crate) fn of(heap: Global, engine: &'a SingleStep) -> Result<Kinds<'a>, AllocError>
        ensures { IfOk result (λ k. k.engine.now ≡ engine.now) }
    {
        let held = engine.held();
        let mut codes = Vec::new(heap);
        for (code, positions) in held.iter().enumerate() {
            if !held[..code].contains(positions) {
                codes.push(code as u8)?;
            }
        }
        Ok(Kinds { engine, codes })
    }

    // Adds the tails that are one code longer to a list.
    fn add_longer(&self, heap: Global, tail: &Tail, list: &mut Vec<Tail>) -> Result<(), AllocError>
        requires { tail.now ≡ led (language self.now.engine.now.expression.tree) tail.now.codes }
        ensures { let r = language self.now.engine.now.expression.tree in
            OnOk result (list.new.items ≡ list.old.items ++ map (led r) (fronted r (all_codes r) tail.now.codes)) }
    {
        let next = tail.positions().follow(self.engine.arrows());
        let held = self.engine.held();
        for code in &self.codes {
            let positions = next & held[usize::from(*code)];
            if !positions.is_empty() {
                list.push(tail.preceded_by(heap, *code, positions)?)?;
            }
        }
        Ok(())
    }

    // The tails that are one code longer than those of a list, if there is room for them.
    pub(crate) fn longer_than(
        &self,
        heap: Global,
        level: &[Tail],
        room: usize,
    ) -> Result<Option<Vec<Tail>>, AllocError>
        requires { AllLed (language self.now.engine.now.expression.tree) level.now }
        ensures { let r = language self.now.engine.now.expression.tree in
            let all = longer_by_one r (words level.now) in
            IfOk result (λ o. MatchOption o (room < length all) (λ v. (v.items ≡ map (led r) all) × (vec_len v ≤ room))) }
    {
        let mut list = Vec::new(heap);
        for tail in level {
            self.add_longer(heap, tail, &mut list)?;
            if list.len() > room {
                return Ok(None);
            }
        }
        Ok(Some(list))
    }
}

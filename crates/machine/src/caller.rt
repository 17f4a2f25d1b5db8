// The thread that calls.
ghost use Rattle.std.specs.Prelude.{◌<◌};

// Its number has an entry among a state's eight threads. Two bounds stay in clauses. A slot's position goes by the sizes of the state at
// hand, so a type for it would need a clause that it is this state's. A link's, `link < 16` in three contracts, is one short clause, no
// longer than a type's name: the phase that the link is stored in carries a plain number (01's form), so each use would wrap and unwrap it.
#[derive(Clone, Copy)]
pub(crate) struct Caller {
    pub(crate) number: u8,
    ghost within: { number < 8 },
}

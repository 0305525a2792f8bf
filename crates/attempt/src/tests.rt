//! What an attempt leaves: nothing where it is dropped, and all where it is kept.
ghost use Rattle.std.specs.Prelude.{◌≡◌, MatchResult};
ghost use Rattle.tables.specs.Begun.{TablesBegin};
ghost use Rattle.tables.specs.Holding.{model_of};

use crate::Attempt;
use entries::node::ExprId;
use expression::building::GivenLiteral;
use lexicon::lexicon::Lexicon;
use plan::fault::Fault;
use std::test::Fail;
use tables::tables::Tables;

/// A text literal and an alias of it. A name of no byte is refused.
fn aliased(tables: &mut Tables, name: &[u8]) -> Result<ExprId, Fault>
    ensures { MatchResult result (λ _. TablesBegin tables.old tables.new) (λ _. model_of tables.new ≡ model_of tables.old) }
{
    let attempt = Attempt::begin(tables);
    let inner = attempt.tables.literal(GivenLiteral::Text(b"some text"))?;
    let outer = attempt.tables.alias(inner, name, None)?;
    attempt.keep();
    Ok(outer)
}

#[test]
fn a_refusal_leaves_nothing(rt: HostRuntime) -> Result<(), Fail> {
    let mut tables = Tables::open(Lexicon::new());
    aliased(&mut tables, b"first")?;
    let before = tables.marks();
    assert!(rt; aliased(&mut tables, b"").is_err());
    assert!(rt; tables.marks() == before);
    assert!(rt; tables.expr_count() == 2);
    Ok(())
}

#[test]
fn what_is_kept_stays(rt: HostRuntime) -> Result<(), Fail> {
    let mut tables = Tables::open(Lexicon::new());
    aliased(&mut tables, b"first")?;
    let before = tables.marks();
    aliased(&mut tables, b"second")?;
    assert!(rt; tables.marks() != before);
    assert!(rt; tables.expr_count() == 4);
    Ok(())
}

//! Tokens, and a fault among them.

use c_lex::lex;
use cc_model::{Keyword, Kind, Punct};
use std::test::Fail;

#[test]
fn a_statement(rt: HostRuntime) -> Result<(), Fail> {
    let tokens = lex(rt.alloc(), b"if (a1 >= 7)")?;
    let kinds: Vec<Kind> = tokens.iter().map(|t| t.kind).collect(rt.alloc())?;
    let is_right = matches!(
        kinds.as_slice(),
        [
            Kind::Key(Keyword::If),
            Kind::Punct(Punct::Open),
            Kind::Name,
            Kind::Punct(Punct::AtLeast),
            Kind::Number(7),
            Kind::Punct(Punct::Close),
        ]
    );
    assert!(rt; is_right);
    Ok(())
}

#[test]
fn a_fault(rt: HostRuntime) -> Result<(), Fail> {
    let fault = lex(rt.alloc(), b"int x = 08;").err().ok_or("tokens")?;
    assert_eq!(rt; fault.to_string(rt.alloc())?.as_str(), "no number at 8");
    Ok(())
}

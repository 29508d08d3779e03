//! Layouts of sources, and refusals, worked out by hand. Each layout is laid out as itself.

use ioa_layout::format;
use ioa_tokens::TokensError;
use std::alloc::Global;
use std::test::Fail;

// Sources with their layouts.
const LAID: [(&[u8], &[u8]); 10] = [
    (b" \t\r\n", b"\n"),
    (b"  % only", b"% only\n"),
    // Sections and declarations begin lines, a blank line stands before an automaton.
    (
        b"type Id=0..1 automaton A(me:Id)signature output a(const me)states x:Bool:=true,y:Int:=-1 transitions output a(const me)pre x eff x:=false;y:=y-1 tasks{a}automaton B components a:A(0);b:A(1)hidden a",
        b"type Id = 0..1\n\nautomaton A(me: Id)\n  signature\n    output a(const me)\n  states\n    x: Bool := true,\n    y: Int := -1\n  transitions\n    output a(const me)\n      pre x\n      eff x := false; y := y - 1\n  tasks { a }\n\nautomaton B\n  components\n    a: A(0); b: A(1)\n  hidden a\n",
    ),
    // A comment stays behind its line or in a line of its own, without blanks at its end, and one blank line stays.
    (
        b"type A = 0..1%here \t\r\n\r\n\r\n   % of B\r\ntype B = 0..2",
        b"type A = 0..1  %here\n\n% of B\ntype B = 0..2\n",
    ),
    // A branch that the writer broke has its ends in lines of their own.
    (
        b"eff if a then b := 1; c := 2\nelseif d then e := 3 else f := 4 fi; g := 5",
        b"eff if a then b := 1; c := 2\n          elseif d then e := 3\n          else f := 4\n          fi;\n          g := 5\n",
    ),
    (
        b"eff if a then\nb := 1; c := 2 fi",
        b"eff if a then\n            b := 1; c := 2\n          fi\n",
    ),
    // Statements that don't fit in a line have lines of their own.
    (
        b"eff aaaaaaaaaaaaaaaaaaaaaaaaa := bbbbbbbbbbbbbbbbbbbbbbbbbbbbb; ccccccccccccccc := ddddddddddddd; e := f",
        b"eff aaaaaaaaaaaaaaaaaaaaaaaaa := bbbbbbbbbbbbbbbbbbbbbbbbbbbbb;\n          ccccccccccccccc := ddddddddddddd;\n          e := f\n",
    ),
    // Conditions are broken before `and` and `or`.
    (
        b"pre aaaaaaaaaaaaaaaaaaaaaaaaaaaaaaaaaaaaa = bbbbbbbbbbbbbbbbbbbbbbbbbbbb and cccccccccccccccccccccccccccccc = d",
        b"pre aaaaaaaaaaaaaaaaaaaaaaaaaaaaaaaaaaaaa = bbbbbbbbbbbbbbbbbbbbbbbbbbbb\n          and cccccccccccccccccccccccccccccc = d\n",
    ),
    // Numbers keep their zeros, and tokens that would be one stay two.
    (b"007 a 1 : = < = (-2) [ 1 ]", b"007 a 1: = < = (-2)[1]\n"),
    (
        b"type Step = enumeration of aaaaaaaaaaaaaaaa, bbbbbbbbbbbbbbbbbbbbbb, cccccccccccccccccccc, ddddddddd, eee",
        b"type Step = enumeration of aaaaaaaaaaaaaaaa, bbbbbbbbbbbbbbbbbbbbbb, cccccccccccccccccccc,\n  ddddddddd, eee\n",
    ),
];

fn is_laid(alloc: Global, source: &[u8], wanted: &[u8]) -> Result<bool, TokensError> {
    let text = format(alloc, source)?;
    let again = format(alloc, text.as_slice())?;
    Ok(text.as_slice() == wanted && again.as_slice() == wanted)
}

#[test]
fn sources_are_laid_out(rt: HostRuntime) -> Result<(), Fail> {
    for (source, wanted) in LAID {
        assert!(rt; is_laid(rt.alloc(), source, wanted)?, "{source:?}");
    }
    Ok(())
}

fn refusal(alloc: Global, source: &[u8]) -> Option<TokensError> {
    match format(alloc, source) {
        Ok(_) => None,
        Err(error) => Some(error),
    }
}

#[test]
fn texts_without_tokens_are_refused(rt: HostRuntime) {
    let alloc = rt.alloc();
    assert!(rt; refusal(alloc, b"a % ok\n?") == Some(TokensError::BadToken(7)));
    assert!(rt; refusal(alloc, b"1a") == Some(TokensError::BadToken(0)));
    assert!(rt; refusal(alloc, b"? % \x80") == Some(TokensError::NotAscii(4)));
}

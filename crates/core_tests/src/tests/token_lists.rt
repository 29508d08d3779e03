//! Tokens and layouts worked out by hand.

use ioa_tokens::{Kind, Page, Token, tokens};
use std::alloc::Global;
use std::test::Fail;
use terms::NoMemory;

// Sources with their tokens, each behind its place.
const CUT: [(&[u8], &str); 16] = [
    (
        b"type enumeration of automaton signature input output internal const states transitions pre eff tasks components",
        "0 Word(Type), 5 Word(Enumeration), 17 Word(Of), 20 Word(Automaton), 30 Word(Signature), 40 Word(Input), 46 Word(Output), 53 Word(Internal), 62 Word(Const), 68 Word(States), 75 Word(Transitions), 87 Word(Pre), 91 Word(Eff), 95 Word(Tasks), 101 Word(Components), ",
    ),
    (
        b"if then elseif else fi for do od empty fill head tail len append true false and or not mod",
        "0 Word(If), 3 Word(Then), 8 Word(Elseif), 15 Word(Else), 20 Word(Fi), 23 Word(For), 27 Word(Do), 30 Word(Od), 33 Word(Empty), 39 Word(Fill), 44 Word(Head), 49 Word(Tail), 54 Word(Len), 58 Word(Append), 65 Word(True), 70 Word(False), 76 Word(And), 80 Word(Or), 83 Word(Not), 87 Word(Mod), ",
    ),
    (
        b"Bool Int Seq Array idle hidden",
        "0 Word(Bool), 5 Word(Int), 9 Word(Seq), 13 Word(Array), 19 Word(Idle), 24 Word(Hidden), ",
    ),
    (
        b":= .. : , ; ( ) [ ] { } = /= < <= > >= + - *",
        "0 Word(Assign), 3 Word(DotDot), 6 Word(Colon), 8 Word(Comma), 10 Word(Semicolon), 12 Word(Open), 14 Word(Close), 16 Word(OpenBracket), 18 Word(CloseBracket), 20 Word(OpenBrace), 22 Word(CloseBrace), 24 Word(Equal), 26 Word(NotEqual), 29 Word(Less), 31 Word(AtMost), 34 Word(Greater), 36 Word(AtLeast), 39 Word(Plus), 41 Word(Minus), 43 Word(Times), ",
    ),
    // The longest sign is taken.
    (
        b":=:: =",
        "0 Word(Assign), 2 Word(Colon), 3 Word(Colon), 5 Word(Equal), ",
    ),
    (
        b"<=<>==>",
        "0 Word(AtMost), 2 Word(Less), 3 Word(AtLeast), 5 Word(Equal), 6 Word(Greater), ",
    ),
    (b"1..2", "0 Number(1), 1 Word(DotDot), 3 Number(2), "),
    (b"a/=b", "0 Name(\"a\"), 1 Word(NotEqual), 3 Name(\"b\"), "),
    // Names go on, and words are no names.
    (
        b"iffy If if if_ if2",
        "0 Name(\"iffy\"), 5 Name(\"If\"), 8 Word(If), 11 Name(\"if_\"), 15 Name(\"if2\"), ",
    ),
    (
        b"bool Bool BOOL hidden z_9Z",
        "0 Name(\"bool\"), 5 Word(Bool), 10 Name(\"BOOL\"), 15 Word(Hidden), 22 Name(\"z_9Z\"), ",
    ),
    // Numbers have 63 bits.
    (
        b"9223372036854775807 000000000000000000000007 0",
        "0 Number(9223372036854775807), 20 Number(7), 45 Number(0), ",
    ),
    // A comment ends at a line feed alone.
    (
        b"x%y . \x0c\n%\r#\n\t\r z % 12ab",
        "0 Name(\"x\"), 15 Name(\"z\"), ",
    ),
    (b"%", ""),
    (b"", ""),
    (b" \t\r\n", ""),
    (b"%\x7f", ""),
];

const RING: &str =
    "type Id = 0..1\nautomaton Node(me: Id, nx: Id, first: Bool)\nsignature\ninput pass(const me)\noutput pass(const nx)\nstates has: Bool := first\ntransitions\ninput pass(const me)\neff has := true\noutput pass(const nx)\npre has\neff has := false\ntasks { pass }\nautomaton Ring\ncomponents a: Node(0, 1, true); b: Node(1, 0, false)\n";

// Sources, and their tokens laid out.
const LAID_OUT: [(&str, &str); 15] = [
    (RING, RING),
    ("", "\n"),
    ("% nothing", "\n"),
    (
        "type T=enumeration of a,b",
        "type T = enumeration of a, b\n",
    ),
    ("-3 .. -1", "- 3..- 1\n"),
    ("x :=- ( -007 )", "x := - (- 7)\n"),
    ("q [1] a [ 0 ] [1]", "q[1] a[0][1]\n"),
    ("not (x) - (x) 1 (", "not (x) - (x) 1 (\n"),
    (
        "fill (0) head (q) tail (q) len (q) append (q , 1)",
        "fill(0) head(q) tail(q) len(q) append(q, 1)\n",
    ),
    (
        "n :Seq [Int ,3] ;m:Array[Bool,Int]",
        "n: Seq[Int, 3]; m: Array[Bool, Int]\n",
    ),
    (
        "if a<=b and(c)then x:=x mod 3 fi",
        "if a <= b and (c) then x := x mod 3 fi\n",
    ),
    ("tasks{a,b}{c}", "tasks { a, b } { c }\n"),
    ("f ( [ .. ] ) ( (", "f([..]) ((\n"),
    (
        "a pre b eff(c)internal d",
        "a\npre b\neff (c)\ninternal d\n",
    ),
    ("9223372036854775807*2", "9223372036854775807 * 2\n"),
];

fn listed(alloc: Global, found: &[Token]) -> Result<String, Fail> {
    let mut text = String::new(alloc);
    for token in found {
        write!(text, "{} {:?}, ", token.at, token.kind)?;
    }
    Ok(text)
}

#[test]
fn sources_are_cut(rt: HostRuntime) -> Result<(), Fail> {
    for (source, wanted) in CUT {
        let found = tokens(rt.alloc(), source).expect(&rt, "tokens");
        assert_eq!(rt; listed(rt.alloc(), found.as_slice())?.as_str(), wanted);
    }
    Ok(())
}

fn put<'a>(page: &mut Page<'a>, kind: Kind<'a>) -> Result<(), NoMemory> {
    match kind {
        Kind::Name(text) => page.put_name(text),
        Kind::Number(value) => page.put_number(value),
        Kind::Word(word) => page.put_word(word),
    }
}

// The tokens, laid out.
fn laid_out(alloc: Global, found: &[Token]) -> Result<Vec<u8>, Fail> {
    let mut page = Page::new(alloc);
    for token in found {
        put(&mut page, token.kind)?;
    }
    Ok(page.into_bytes()?)
}

#[test]
fn tokens_are_laid_out(rt: HostRuntime) -> Result<(), Fail> {
    for (source, wanted) in LAID_OUT {
        let found = tokens(rt.alloc(), source.as_bytes()).expect(&rt, "tokens");
        let page = laid_out(rt.alloc(), found.as_slice())?;
        assert_eq!(rt; page.as_slice(), wanted.as_bytes());
    }
    Ok(())
}

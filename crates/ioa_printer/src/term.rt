//! The tokens of terms and of what is put in a place.
ghost use Rattle.std.specs.Prelude.{◌≡◌, ◌++◌, ◌∷◌, [], OnOk, map};
ghost use Rattle.ioa_tokens.specs.declared.Word.TheVariants as w;
ghost use Rattle.ioa_tokens.specs.Tokens.{Key};
ghost use Rattle.ioa_trees.specs.Nodes.{yield, yield_nodes};
ghost use Rattle.ioa_trees.specs.Trees as plain;
ghost use Rattle.ioa_trees.specs.Trees.{pack_terms, pack_factors, pack_addends};
ghost use Rattle.ioa_trees.specs.Spelling.{word_of_sign, word_of_relation, word_of_call, node, index_nodes, and_nodes, or_nodes, factor_node, factor_nodes, addend_nodes, init_node};
ghost use Rattle.ioa_trees.specs.Views.{view, view_factor, view_addend, view_init};

use ioa_tokens::{Page, Word};
use ioa_trees::tree::{Addend, Call, Factor, Init, Relation, Sign, Term};
use terms::NoMemory;

fn word_of_sign(sign: Sign) -> Word
    ensures { result ≡ word_of_sign sign }
{
    match sign {
        Sign::Plus => Word::Plus,
        Sign::Minus => Word::Minus,
    }
}

fn word_of_relation(relation: Relation) -> Word
    ensures { result ≡ word_of_relation relation }
{
    match relation {
        Relation::Equal => Word::Equal,
        Relation::NotEqual => Word::NotEqual,
        Relation::Less => Word::Less,
        Relation::AtMost => Word::AtMost,
        Relation::Greater => Word::Greater,
        Relation::AtLeast => Word::AtLeast,
    }
}

fn word_of_call(call: Call) -> Word
    ensures { result ≡ word_of_call call }
{
    match call {
        Call::Head => Word::Head,
        Call::Tail => Word::Tail,
        Call::Len => Word::Len,
    }
}

#[cycle(printing_terms)]
#[tactic(auto, using(std::proofs::lemmas::List::append_assoc))]
pub(crate) fn put_term<'a>(page: &mut Page<'a>, term: &'a Term) -> Result<(), NoMemory>
    ensures { OnOk result (page.new ≡ page.old ++ yield (node (view term.now))) }
{
    match term {
        Term::Number(number) => page.put_number(*number),
        Term::True => page.put_word(Word::True),
        Term::False => page.put_word(Word::False),
        Term::Name(name) => page.put_name(name.as_str()),
        Term::Group(inner) => put_group(page, inner),
        Term::Call(call, of) => put_call(page, *call, of),
        Term::Append(list, item) => {
            put_list(page, list)?;
            put_item(page, item)
        }
        Term::Index(of, indexes) => {
            put_term(page, of)?;
            put_indexes(page, indexes.as_slice())
        }
        Term::Minus(of) => put_behind(page, Word::Minus, of),
        Term::Product(first, factors) => {
            put_term(page, first)?;
            put_factors(page, factors.as_slice())
        }
        Term::Sum(first, addends) => {
            put_term(page, first)?;
            put_addends(page, addends.as_slice())
        }
        Term::Compare(left, relation, right) => {
            put_term(page, left)?;
            put_behind(page, word_of_relation(*relation), right)
        }
        Term::Not(of) => put_behind(page, Word::Not, of),
        Term::And(first, others) => {
            put_term(page, first)?;
            put_ands(page, others.as_slice())
        }
        Term::Or(first, others) => {
            put_term(page, first)?;
            put_ors(page, others.as_slice())
        }
    }
}

// A term behind a word.
#[cycle(printing_terms)]
#[tactic(auto, using(std::proofs::lemmas::List::append_assoc))]
fn put_behind<'a>(page: &mut Page<'a>, word: Word, of: &'a Term) -> Result<(), NoMemory>
    ensures { OnOk result (page.new ≡ page.old ++ (Key word ∷ yield (node (view of.now)))) }
{
    page.put_word(word)?;
    put_term(page, of)
}

// A term in parentheses.
#[cycle(printing_terms)]
#[tactic(auto, using(std::proofs::lemmas::List::append_assoc))]
fn put_group<'a>(page: &mut Page<'a>, inner: &'a Term) -> Result<(), NoMemory>
    ensures { OnOk result (page.new ≡ page.old ++ yield (node (plain.Group (view inner.now)))) }
{
    page.put_word(Word::Open)?;
    put_term(page, inner)?;
    page.put_word(Word::Close)
}

#[cycle(printing_terms)]
#[tactic(auto, using(std::proofs::lemmas::List::append_assoc))]
fn put_call<'a>(page: &mut Page<'a>, call: Call, of: &'a Term) -> Result<(), NoMemory>
    ensures { OnOk result (page.new ≡ page.old
        ++ yield (node (plain.Called call (view of.now)))) }
{
    page.put_word(word_of_call(call))?;
    put_group(page, of)
}

// `append`, `(` and the sequence.
#[cycle(printing_terms)]
#[tactic(auto, using(std::proofs::lemmas::List::append_assoc))]
fn put_list<'a>(page: &mut Page<'a>, list: &'a Term) -> Result<(), NoMemory>
    ensures { OnOk result (page.new ≡ page.old
        ++ (Key w.Append ∷ (Key w.Open ∷ yield (node (view list.now))))) }
{
    page.put_word(Word::Append)?;
    put_behind(page, Word::Open, list)
}

// What follows the sequence in an `append`.
#[cycle(printing_terms)]
#[tactic(auto, using(std::proofs::lemmas::List::append_assoc))]
fn put_item<'a>(page: &mut Page<'a>, item: &'a Term) -> Result<(), NoMemory>
    ensures { OnOk result (page.new ≡ page.old
        ++ (Key w.Comma ∷ (yield (node (view item.now)) ++ (Key w.Close ∷ [])))) }
{
    put_behind(page, Word::Comma, item)?;
    page.put_word(Word::Close)
}

#[cycle(printing_terms)]
#[tactic(auto, using(std::proofs::lemmas::List::append_assoc))]
fn put_indexes<'a>(page: &mut Page<'a>, indexes: &'a [Term]) -> Result<(), NoMemory>
    ensures { OnOk result (page.new ≡ page.old
        ++ yield_nodes (index_nodes (pack_terms (map view indexes.now)))) }
{
    for index in indexes {
        put_behind(page, Word::OpenBracket, index)?;
        page.put_word(Word::CloseBracket)?;
    }
    Ok(())
}

#[cycle(printing_terms)]
#[tactic(auto, using(std::proofs::lemmas::List::append_assoc))]
fn put_ands<'a>(page: &mut Page<'a>, others: &'a [Term]) -> Result<(), NoMemory>
    ensures { OnOk result (page.new ≡ page.old
        ++ yield_nodes (and_nodes (pack_terms (map view others.now)))) }
{
    for other in others {
        put_behind(page, Word::And, other)?;
    }
    Ok(())
}

#[cycle(printing_terms)]
#[tactic(auto, using(std::proofs::lemmas::List::append_assoc))]
fn put_ors<'a>(page: &mut Page<'a>, others: &'a [Term]) -> Result<(), NoMemory>
    ensures { OnOk result (page.new ≡ page.old
        ++ yield_nodes (or_nodes (pack_terms (map view others.now)))) }
{
    for other in others {
        put_behind(page, Word::Or, other)?;
    }
    Ok(())
}

#[cycle(printing_terms)]
#[tactic(auto, using(std::proofs::lemmas::List::append_assoc))]
fn put_factors<'a>(page: &mut Page<'a>, factors: &'a [Factor]) -> Result<(), NoMemory>
    ensures { OnOk result (page.new ≡ page.old
        ++ yield_nodes (factor_nodes (pack_factors (map view_factor factors.now)))) }
{
    for factor in factors {
        put_factor(page, factor)?;
    }
    Ok(())
}

#[cycle(printing_terms)]
#[tactic(auto, using(std::proofs::lemmas::List::append_assoc))]
fn put_factor<'a>(page: &mut Page<'a>, factor: &'a Factor) -> Result<(), NoMemory>
    ensures { OnOk result (page.new ≡ page.old ++ yield (factor_node (view_factor factor.now))) }
{
    match factor {
        Factor::Times(term) => put_behind(page, Word::Times, term),
        Factor::Modulo(number) => {
            page.put_word(Word::Mod)?;
            page.put_number(*number)
        }
    }
}

#[cycle(printing_terms)]
#[tactic(auto, using(std::proofs::lemmas::List::append_assoc))]
fn put_addends<'a>(page: &mut Page<'a>, addends: &'a [Addend]) -> Result<(), NoMemory>
    ensures { OnOk result (page.new ≡ page.old
        ++ yield_nodes (addend_nodes (pack_addends (map view_addend addends.now)))) }
{
    for addend in addends {
        put_behind(page, word_of_sign(addend.sign), &addend.term)?;
    }
    Ok(())
}

#[cycle(printing_values)]
#[tactic(auto, using(std::proofs::lemmas::List::append_assoc))]
pub(crate) fn put_init<'a>(page: &mut Page<'a>, init: &'a Init) -> Result<(), NoMemory>
    ensures { OnOk result (page.new ≡ page.old ++ yield (init_node (view_init init.now))) }
{
    match init {
        Init::Empty => page.put_word(Word::Empty),
        Init::Fill(item) => {
            page.put_word(Word::Fill)?;
            page.put_word(Word::Open)?;
            put_init(page, item)?;
            page.put_word(Word::Close)
        }
        Init::Term(term) => put_term(page, term),
    }
}

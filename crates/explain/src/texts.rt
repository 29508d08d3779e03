//! The sentence of each refusal and fault, and what there is to tell of it at length.
ghost use Rattle.std.specs.Prelude.{◌≡◌, is_some};
ghost use Rattle.explain.specs.Explanations.{is_known};

/// The sentence of a refusal.
pub(crate) fn sentence(number: u8) -> &'static str {
    match number {
        2 => "this byte is not ASCII",
        3 => "no word, number or sign of the language begins here",
        4 => "a source can't go on so",
        5 => "the source is too large",
        6 => "the source is nested too deep",
        10 => "this name means nothing that can stand here",
        11 => "this name stands here for the second time",
        12 => "the type doesn't fit",
        13 => "this entry has no transition",
        14 => "this is a second transition of one entry",
        15 => "an input has no precondition",
        16 => "each output and internal belongs to exactly one task",
        17 => "this is over a limit",
        20 => "the automaton of this component isn't declared",
        21 => "this component has one action in two of its sets",
        22 => "this component and an earlier one share an internal action",
        23 => "this component and an earlier one have the same output",
        24 => "an action of this component has other parameters than elsewhere",
        25 => "there are too many components",
        27 => "this gap is too great",
        28 => "the component has no such task",
        29 => "this line is no row of a table",
        30 => "there is no such component",
        36 => "no component has such an output",
        50 => "this line has none of the forms of its file",
        51 => "the composition has no such action",
        52 => "the key of this turn isn't above that of the turn before it",
        _ => "this is refused",
    }
}

/// What there is to tell of a refusal or a fault at length; of other numbers nothing.
pub fn story(number: u8) -> Option<&'static str>
    ensures { is_some result ≡ is_known number }
{
    match number {
        1..=6 => Some(reading_story(number)),
        10..=17 => Some(checking_story(number)),
        20..=25 => Some(composing_story(number)),
        26..=36 => Some(turns_story(number)),
        40..=41 => Some(
            "a run: a lease was of another setup (40), or wasn't the one that is known (41). No case is known.\n",
        ),
        50..=52 => Some(lines_story(number)),
        60..=64 => Some(fault_story(number)),
        _ => None,
    }
}

fn reading_story(number: u8) -> &'static str {
    match number {
        1 =>
            "1 NoMemory: memory was refused. In a step of `drive` the step is refused, and elsewhere it is a fault, status 3.\n",
        2 =>
            "2 NotAscii, at a byte: a source is ASCII text, comments too. The place is the first byte of 128 or more.\nExample: a comment `% Zustand f\u{fc}r`.\n",
        3 =>
            "3 BadToken, at a byte: neither a blank nor a comment, a name, a word, a number or a sign begins here; or a number is above\n9223372036854775807, or runs into a letter or `_`.\nExample: `12ab`, `#`.\n",
        4 =>
            "4 Syntax, at a byte: the text up to here begins a source, and no source goes on with this token. If the text ends too early, the\nplace is its length. `explain F` lists all that could stand there.\nExample: `automaton A signature states`.\n",
        5 => "5 TooLarge: the source has over 65,536 bytes.\n",
        _ =>
            "6 TooDeep: a token stands over 64 deep in parentheses, brackets, `if`, `for`, `not` and prefix `-`.\n",
    }
}

fn checking_story(number: u8) -> &'static str {
    match number {
        10 =>
            "10 UnknownName, at a token: a name that means nothing, or not what is needed here: a type, a formal after `const`, a value, a state\nvariable before `:=`; or a transition that no entry has.\nExample: `states n: Nat := 0` without `type Nat = ..`.\n",
        11 =>
            "11 DoubleName, at a token: a name declared twice, or hidden twice. Types, members and automata share one name space; formals,\nvariables, parameters and loop variables differ from these, and from each other where they are visible together.\nExample: `states n: Int := 0, n: Int := 1`.\n",
        12 =>
            "12 WrongType, at a token: a type that doesn't fit. The place is the first token of the operand, argument, index, condition or value;\nfor an assignment its left name. Also a type that must be scalar or listed and isn't, a range upside down, `mod 0`, parameters that\naren't the entry's, and a wrong number of arguments.\nExample: `pre n` where `n` is an `Int`.\n",
        13 =>
            "13 NoTransition, at a token: an entry of the signature without a transition. Each entry has exactly one.\n",
        14 => "14 DoubleTransition, at a token: a second transition of one entry.\n",
        15 =>
            "15 InputWithPre, at a token: an input with `pre`. An input can always be taken; say what it does not change by `if` in `eff`.\n",
        16 =>
            "16 TasksNotAPartition, at a token: a name in a task that is no output or internal, or that stood in a task before; or an output or\ninternal in no task.\n",
        _ =>
            "17 OverLimit, at a token: over a limit: 256 members listed, 4,096 combinations of the typed parameters of an output or internal, 16\nformals or parameters, three nested `for`, a sequence bound outside 1 to 65,535, 65,536 scalars in a type or a state.\n",
    }
}

fn composing_story(number: u8) -> &'static str {
    match number {
        20 => "20 NoSuchAutomaton, at a component: the component's automaton isn't declared.\n",
        21 =>
            "21 OwnOverlap, at a component: the component has one action, with its values, in two of its sets.\nExample: `Node(0, 0, true)` with `input pass(const me)` and `output pass(const nx)`.\n",
        22 =>
            "22 InternalShared, at a component: it and an earlier component share an action that is internal to one of them. Give the action a\n`const` parameter that differs, as `wake(const me)`.\n",
        23 =>
            "23 OutputShared, at a component: it and an earlier component have the same output. Give the action a `const` parameter that differs.\n",
        24 =>
            "24 ShapeDiffers, at a component: an action name with parameters of other types, or another number of them, than elsewhere.\n",
        _ => "25 TooManyComponents, at 1024: over 1,024 components.\n",
    }
}

fn turns_story(number: u8) -> &'static str {
    match number {
        26 =>
            "26 HorizonTooLarge: the last tick is above 4,294,967,296. On the command line these are wrong words, status 2.\n",
        27 => "27 GapOutOfRange, at a line of a table: a gap above 65,535.\n",
        28 => "28 TaskOutOfRange, at a line of a table: a task that the component doesn't have.\n",
        29 => "29 BadTable, at a line: no row of a table. A row is `component gap task choice`.\n",
        30 =>
            "30 NoSuchComponent, at a line of a table, or of a step: components are counted from 0.\n",
        31 => "31 NothingPending, of a step: no input is pending and no turn is left.\n",
        32 => "32 NoSuchMessage, of a step: it isn't in flight; for `meet`, not both are.\n",
        33 =>
            "33 NothingToRollBack, of a step: the component has done nothing since what is committed.\n",
        34 =>
            "34 AheadOfTime, of a step: the bound is above global virtual time, the least key that may still come.\n",
        35 => "35 BehindCommit, of a step: the bound is below what is committed.\n",
        _ => "36 NotAnOutput, at a hidden name: no component has an output of this name.\n",
    }
}

fn lines_story(number: u8) -> &'static str {
    match number {
        50 =>
            "50 BadLine, at a line: of a trace, neither an action nor a turn; of one of version 2, no turn of a component that exists; of a file of\nsteps, no step.\n",
        51 =>
            "51 UnknownAction, at a line: an action name, or a number or kinds of arguments, that the composition doesn't have.\n",
        _ =>
            "52 NotInOrder, at a line of a trace of version 2: a turn whose key isn't above that of the turn before it.\n",
    }
}

fn fault_story(number: u8) -> &'static str {
    match number {
        60 => "60 WriteFailed: a write to standard output failed, status 3.\n",
        61 => "61 ThreadRefused: a worker's thread couldn't be started, status 3.\n",
        62 => "62 OutOfPlace: in a run, turns came out of place, status 3. No case is known.\n",
        63 => "63 Failed: a file can't be read, status 3.\n",
        _ => "64: a table, trace or file of steps has over 16,777,216 bytes, status 3.\n",
    }
}

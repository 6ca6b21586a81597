//! Assertions.
ghost use Rattle.std.specs.Prelude.{◌≡◌, ◌||◌, ◌-◌, ◌<◌, ◌≤◌, length, OnOk};
ghost use Rattle.fsl_grammar.specs.Readers.{ReadsAs, many_of};
ghost use Rattle.fsl_grammar.specs.Heads.{is_next};
ghost use Rattle.fsl_grammar.specs.ReadAssertions.{read_acquire_permission, read_arm, read_assertion, read_atom, read_bank_amount, read_bank_word, read_choice, read_clause, read_comparison_to, read_conjunct, read_initialised, read_lowered, read_named_or_related, read_optional_share, read_part, read_pattern, read_permission, read_points_to, read_raised, read_relation, read_release_permission, read_update_permission};
ghost use Rattle.fsl_token.specs.declared.kind.TokenKind.TheVariants.{AuthAssertion, Separate, TokAssertion};

use crate::parser::Parser;
use fsl_base::{Boxed, List};
use fsl_grammar::{Arm, Enclosed, ExcludedSet, Fault, Held, Numeral, Permission, Test};
use fsl_token::TokenKind;
use fsl_tree::{Assertion, Atom, BankWord, Clause, Conjunct, Part, Pattern, Relation, Share};
use std::alloc::Global;

impl<'a> Parser<'a> {
    /// `atom { "&*&" atom }`
    #[cycle(assertion)]
    #[tactic(auto, unfolding(fsl_grammar::specs::ReadAssertions::read_assertion_of))]
    pub fn assertion(&mut self, alloc: Global, room: u32) -> Result<Assertion, Fault>
        ensures shorter { OnOk result (length self.new.rest.now < length self.old.rest.now) }
        ensures agrees { ReadsAs result self.new.rest.now (read_assertion room) self.old.rest.now }
    {
        let first = self.atom(alloc, room)?;
        let more = self.conjuncts(alloc, room)?;
        Ok(Assertion { first, more })
    }

    /// `{ "&*&" atom }`
    #[cycle(assertion)]
    #[tactic(auto, using(fsl_grammar::proofs::Turns::going_start, fsl_grammar::proofs::Turns::going_step))]
    fn conjuncts(&mut self, alloc: Global, room: u32) -> Result<List<Conjunct>, Fault>
        ensures shorter { OnOk result (length self.new.rest.now ≤ length self.old.rest.now) }
        ensures agrees { ReadsAs result self.new.rest.now (many_of (is_next Separate) (read_conjunct (read_atom room))) self.old.rest.now }
    {
        let mut more = List::new(alloc);
        'conjuncts: while self.is_next(TokenKind::Separate) {
            more.push(self.conjunct(alloc, room)?)?;
        }
        Ok(more)
    }

    /// `"&*&" atom`
    #[cycle(assertion)]
    #[tactic(auto, unfolding(fsl_grammar::specs::ReadAssertions::read_conjunct))]
    fn conjunct(&mut self, alloc: Global, room: u32) -> Result<Conjunct, Fault>
        ensures shorter { OnOk result (length self.new.rest.now < length self.old.rest.now) }
        ensures agrees { ReadsAs result self.new.rest.now (read_conjunct (read_atom room)) self.old.rest.now }
    {
        let separate = self.take(TokenKind::Separate)?;
        let atom = self.atom(alloc, room)?;
        Ok(Conjunct { separate, atom })
    }

    /// One part of an assertion.
    #[cycle(assertion)]
    fn atom(&mut self, alloc: Global, room: u32) -> Result<Atom, Fault>
        ensures shorter { OnOk result (length self.new.rest.now < length self.old.rest.now) }
        ensures agrees { ReadsAs result self.new.rest.now (read_atom room) self.old.rest.now }
    {
        if self.is_next(TokenKind::Emp) {
            Ok(Atom::Empty {
                word: self.take(TokenKind::Emp)?,
            })
        } else if self.is_next(TokenKind::If) {
            self.choice(alloc, room)
        } else if self.is_next(TokenKind::Up) {
            self.raised(alloc, room)
        } else if self.is_next(TokenKind::Down) {
            self.lowered(alloc, room)
        } else if self.is_next(TokenKind::InitAssertion) {
            self.initialised(alloc, room)
        } else if self.is_next(TokenKind::RelAssertion) {
            self.release_permission(alloc, room)
        } else if self.is_next(TokenKind::RmwAcqAssertion) {
            self.update_permission(alloc, room)
        } else if self.is_next(TokenKind::AcqAssertion) {
            self.acquire_permission(alloc, room)
        } else if self.is_bank_next() {
            self.bank_amount(alloc, room)
        } else {
            self.named_or_related(alloc, room)
        }
    }

    /// `"if" "(" condition ")" "{" assertion "}" "else" "{" assertion "}"`
    #[cycle(assertion)]
    #[tactic(auto, unfolding(fsl_grammar::specs::ReadAssertions::read_choice))]
    fn choice(&mut self, alloc: Global, room: u32) -> Result<Atom, Fault>
        ensures shorter { OnOk result (length self.new.rest.now < length self.old.rest.now) }
        ensures agrees { ReadsAs result self.new.rest.now (read_choice room (read_atom (room - 1))) self.old.rest.now }
    {
        let Test {
            word,
            open,
            condition,
            close,
        } = self.test(alloc, TokenKind::If, room)?;
        let first = self.arm(alloc, room)?;
        let otherwise = self.take(TokenKind::Else)?;
        let second = self.arm(alloc, room)?;
        Ok(Atom::Choice {
            word,
            open,
            condition,
            close,
            first_open: first.open,
            first: first.assertion,
            first_close: first.close,
            otherwise,
            second_open: second.open,
            second: second.assertion,
            second_close: second.close,
        })
    }

    /// `"{" assertion "}"`, the assertion on the heap
    #[cycle(assertion)]
    #[tactic(auto, unfolding(fsl_grammar::specs::ReadAssertions::read_arm))]
    fn arm(&mut self, alloc: Global, room: u32) -> Result<Arm, Fault>
        ensures shorter { OnOk result (length self.new.rest.now < length self.old.rest.now) }
        ensures agrees { ReadsAs result self.new.rest.now (read_arm room (read_atom (room - 1))) self.old.rest.now }
    {
        let Part {
            open,
            assertion,
            close,
        } = self.part(alloc, room)?;
        let assertion = Boxed::new(alloc, assertion)?;
        Ok(Arm {
            open,
            assertion,
            close,
        })
    }

    /// `"up" "(" assertion ")"`
    #[cycle(assertion)]
    #[tactic(auto, unfolding(fsl_grammar::specs::ReadAssertions::read_raised))]
    fn raised(&mut self, alloc: Global, room: u32) -> Result<Atom, Fault>
        ensures shorter { OnOk result (length self.new.rest.now < length self.old.rest.now) }
        ensures agrees { ReadsAs result self.new.rest.now (read_raised room (read_atom (room - 1))) self.old.rest.now }
    {
        let Clause {
            word,
            open,
            assertion,
            close,
        } = self.clause(alloc, TokenKind::Up, room)?;
        let assertion = Boxed::new(alloc, assertion)?;
        Ok(Atom::Up {
            word,
            open,
            assertion,
            close,
        })
    }

    /// `"down" "(" assertion ")"`
    #[cycle(assertion)]
    #[tactic(auto, unfolding(fsl_grammar::specs::ReadAssertions::read_lowered))]
    fn lowered(&mut self, alloc: Global, room: u32) -> Result<Atom, Fault>
        ensures shorter { OnOk result (length self.new.rest.now < length self.old.rest.now) }
        ensures agrees { ReadsAs result self.new.rest.now (read_lowered room (read_atom (room - 1))) self.old.rest.now }
    {
        let Clause {
            word,
            open,
            assertion,
            close,
        } = self.clause(alloc, TokenKind::Down, room)?;
        let assertion = Boxed::new(alloc, assertion)?;
        Ok(Atom::Down {
            word,
            open,
            assertion,
            close,
        })
    }

    /// A word and `"(" assertion ")"`
    #[cycle(assertion)]
    #[tactic(auto, unfolding(fsl_grammar::specs::ReadAssertions::read_clause_of))]
    pub fn clause(&mut self, alloc: Global, word: TokenKind, room: u32) -> Result<Clause, Fault>
        ensures shorter { OnOk result (length self.new.rest.now < length self.old.rest.now) }
        ensures agrees { ReadsAs result self.new.rest.now (read_clause word room) self.old.rest.now }
    {
        let word = self.take(word)?;
        let open = self.open(TokenKind::OpenParen, room)?;
        let assertion = self.assertion(alloc, room - 1)?;
        let close = self.take(TokenKind::CloseParen)?;
        Ok(Clause {
            word,
            open,
            assertion,
            close,
        })
    }

    /// `"{" assertion "}"`
    #[cycle(assertion)]
    #[tactic(auto, unfolding(fsl_grammar::specs::ReadAssertions::read_part_of))]
    pub fn part(&mut self, alloc: Global, room: u32) -> Result<Part, Fault>
        ensures shorter { OnOk result (length self.new.rest.now < length self.old.rest.now) }
        ensures agrees { ReadsAs result self.new.rest.now (read_part room) self.old.rest.now }
    {
        let open = self.open(TokenKind::OpenBrace, room)?;
        let assertion = self.assertion(alloc, room - 1)?;
        let close = self.take(TokenKind::CloseBrace)?;
        Ok(Part {
            open,
            assertion,
            close,
        })
    }

    /// `"Init" "(" expression ")"`
    #[tactic(auto, unfolding(fsl_grammar::specs::ReadAssertions::read_initialised))]
    fn initialised(&mut self, alloc: Global, room: u32) -> Result<Atom, Fault>
        ensures shorter { OnOk result (length self.new.rest.now < length self.old.rest.now) }
        ensures agrees { ReadsAs result self.new.rest.now (read_initialised room) self.old.rest.now }
    {
        let Enclosed {
            word,
            open,
            expression: location,
            close,
        } = self.enclosed(alloc, TokenKind::InitAssertion, room)?;
        Ok(Atom::Init {
            word,
            open,
            location,
            close,
        })
    }

    /// A word and `"(" expression "," use ")"`
    #[tactic(auto, unfolding(fsl_grammar::specs::ReadAssertions::read_permission))]
    fn permission(&mut self, alloc: Global, word: TokenKind, room: u32) -> Result<Permission, Fault>
        ensures shorter { OnOk result (length self.new.rest.now < length self.old.rest.now) }
        ensures agrees { ReadsAs result self.new.rest.now (read_permission word room) self.old.rest.now }
    {
        let word = self.take(word)?;
        let open = self.open(TokenKind::OpenParen, room)?;
        let held = self.held(alloc, room - 1)?;
        let close = self.take(TokenKind::CloseParen)?;
        Ok(Permission {
            word,
            open,
            held,
            close,
        })
    }

    /// `"Rel" "(" expression "," use ")"`
    #[tactic(auto, unfolding(fsl_grammar::specs::ReadAssertions::read_release_permission))]
    fn release_permission(&mut self, alloc: Global, room: u32) -> Result<Atom, Fault>
        ensures shorter { OnOk result (length self.new.rest.now < length self.old.rest.now) }
        ensures agrees { ReadsAs result self.new.rest.now (read_release_permission room) self.old.rest.now }
    {
        let Permission {
            word,
            open,
            held,
            close,
        } = self.permission(alloc, TokenKind::RelAssertion, room)?;
        let Held {
            location,
            comma,
            invariant,
        } = held;
        Ok(Atom::Rel {
            word,
            open,
            location,
            comma,
            invariant,
            close,
        })
    }

    /// `"RmwAcq" "(" expression "," use ")"`
    #[tactic(auto, unfolding(fsl_grammar::specs::ReadAssertions::read_update_permission))]
    fn update_permission(&mut self, alloc: Global, room: u32) -> Result<Atom, Fault>
        ensures shorter { OnOk result (length self.new.rest.now < length self.old.rest.now) }
        ensures agrees { ReadsAs result self.new.rest.now (read_update_permission room) self.old.rest.now }
    {
        let Permission {
            word,
            open,
            held,
            close,
        } = self.permission(alloc, TokenKind::RmwAcqAssertion, room)?;
        let Held {
            location,
            comma,
            invariant,
        } = held;
        Ok(Atom::RmwAcq {
            word,
            open,
            location,
            comma,
            invariant,
            close,
        })
    }

    /// `"Acq" "(" expression "," use "," NUMBER "," "{" [ arguments ] "}" ")"`
    #[tactic(auto, unfolding(fsl_grammar::specs::ReadAssertions::read_acquire_permission))]
    fn acquire_permission(&mut self, alloc: Global, room: u32) -> Result<Atom, Fault>
        ensures shorter { OnOk result (length self.new.rest.now < length self.old.rest.now) }
        ensures agrees { ReadsAs result self.new.rest.now (read_acquire_permission room) self.old.rest.now }
    {
        let word = self.take(TokenKind::AcqAssertion)?;
        let open = self.open(TokenKind::OpenParen, room)?;
        let Held {
            location,
            comma: use_comma,
            invariant,
        } = self.held(alloc, room - 1)?;
        let part_comma = self.take(TokenKind::Comma)?;
        let Numeral {
            place: part,
            value: part_value,
        } = self.number()?;
        let set_comma = self.take(TokenKind::Comma)?;
        let ExcludedSet {
            open: set_open,
            excluded,
            close: set_close,
        } = self.excluded_set(alloc, room - 1)?;
        let close = self.take(TokenKind::CloseParen)?;
        Ok(Atom::Acq {
            word,
            open,
            location,
            use_comma,
            invariant,
            part_comma,
            part,
            part_value,
            set_comma,
            set_open,
            excluded,
            set_close,
            close,
        })
    }

    /// Whether `Tok` or `Auth` comes next.
    fn is_bank_next(&self) -> bool
        ensures { result ≡ (is_next TokAssertion self.now.rest.now || is_next AuthAssertion self.now.rest.now) }
    {
        self.is_next(TokenKind::TokAssertion) || self.is_next(TokenKind::AuthAssertion)
    }

    /// `"Tok" | "Auth"`
    #[tactic(auto, unfolding(fsl_grammar::specs::ReadAssertions::read_bank_word))]
    fn bank_word(&mut self) -> Result<BankWord, Fault>
        ensures shorter { OnOk result (length self.new.rest.now < length self.old.rest.now) }
        ensures agrees { ReadsAs result self.new.rest.now read_bank_word self.old.rest.now }
    {
        if self.is_next(TokenKind::TokAssertion) {
            Ok(BankWord::Tok {
                place: self.take(TokenKind::TokAssertion)?,
            })
        } else {
            Ok(BankWord::Auth {
                place: self.take(TokenKind::AuthAssertion)?,
            })
        }
    }

    /// `( "Tok" | "Auth" ) "(" NAME "," expression ")"`
    #[tactic(auto, unfolding(fsl_grammar::specs::ReadAssertions::read_bank_amount))]
    fn bank_amount(&mut self, alloc: Global, room: u32) -> Result<Atom, Fault>
        ensures shorter { OnOk result (length self.new.rest.now < length self.old.rest.now) }
        ensures agrees { ReadsAs result self.new.rest.now (read_bank_amount room) self.old.rest.now }
    {
        let word = self.bank_word()?;
        let open = self.open(TokenKind::OpenParen, room)?;
        let bank = self.take(TokenKind::Name)?;
        let comma = self.take(TokenKind::Comma)?;
        let amount = self.expression(alloc, room - 1)?;
        let close = self.take(TokenKind::CloseParen)?;
        Ok(Atom::Bank {
            word,
            open,
            bank,
            comma,
            amount,
            close,
        })
    }

    /// A use of a predicate, or what begins with an expression. No expression has a name before a `(`.
    #[tactic(auto, unfolding(fsl_grammar::specs::ReadAssertions::read_named_or_related, fsl_grammar::specs::ReadAssertions::read_related))]
    fn named_or_related(&mut self, alloc: Global, room: u32) -> Result<Atom, Fault>
        ensures shorter { OnOk result (length self.new.rest.now < length self.old.rest.now) }
        ensures agrees { ReadsAs result self.new.rest.now (read_named_or_related room) self.old.rest.now }
    {
        if self.is_use_next() {
            return Ok(Atom::Predicate {
                usage: self.usage(alloc, room)?,
            });
        }
        let left = self.expression(alloc, room)?;
        let relation = self.relation(alloc, room)?;
        Ok(Atom::Related { left, relation })
    }

    /// `comparison expression | "|->" [ share ] pattern`
    #[tactic(auto, unfolding(fsl_grammar::specs::ReadAssertions::read_relation))]
    fn relation(&mut self, alloc: Global, room: u32) -> Result<Relation, Fault>
        ensures shorter { OnOk result (length self.new.rest.now < length self.old.rest.now) }
        ensures agrees { ReadsAs result self.new.rest.now (read_relation room) self.old.rest.now }
    {
        if self.is_next(TokenKind::PointsTo) {
            self.points_to(alloc, room)
        } else {
            self.comparison_to(alloc, room)
        }
    }

    /// `"|->" [ share ] pattern`
    #[tactic(auto, unfolding(fsl_grammar::specs::ReadAssertions::read_points_to))]
    fn points_to(&mut self, alloc: Global, room: u32) -> Result<Relation, Fault>
        ensures shorter { OnOk result (length self.new.rest.now < length self.old.rest.now) }
        ensures agrees { ReadsAs result self.new.rest.now (read_points_to room) self.old.rest.now }
    {
        let arrow = self.take(TokenKind::PointsTo)?;
        let share = self.optional_share(alloc, room)?;
        let pattern = self.pattern(alloc, room)?;
        Ok(Relation::PointsTo {
            arrow,
            share,
            pattern,
        })
    }

    /// `comparison expression`
    #[tactic(auto, unfolding(fsl_grammar::specs::ReadAssertions::read_comparison_to))]
    fn comparison_to(&mut self, alloc: Global, room: u32) -> Result<Relation, Fault>
        ensures shorter { OnOk result (length self.new.rest.now < length self.old.rest.now) }
        ensures agrees { ReadsAs result self.new.rest.now (read_comparison_to room) self.old.rest.now }
    {
        let comparison = self.comparison()?;
        let right = self.expression(alloc, room)?;
        Ok(Relation::Compared { comparison, right })
    }

    /// `[ "[" expression "]" ]`
    #[tactic(auto, unfolding(fsl_grammar::specs::ReadAssertions::read_optional_share, fsl_grammar::specs::ReadAssertions::read_share))]
    fn optional_share(&mut self, alloc: Global, room: u32) -> Result<Option<Share>, Fault>
        ensures shorter { OnOk result (length self.new.rest.now ≤ length self.old.rest.now) }
        ensures agrees { ReadsAs result self.new.rest.now (read_optional_share room) self.old.rest.now }
    {
        if self.is_next(TokenKind::OpenBracket) {
            let open = self.open(TokenKind::OpenBracket, room)?;
            let amount = self.expression(alloc, room - 1)?;
            let close = self.take(TokenKind::CloseBracket)?;
            Ok(Some(Share {
                open,
                amount,
                close,
            }))
        } else {
            Ok(None)
        }
    }

    /// `"_" | "?" NAME | expression`
    #[tactic(auto, unfolding(fsl_grammar::specs::ReadAssertions::read_pattern))]
    fn pattern(&mut self, alloc: Global, room: u32) -> Result<Pattern, Fault>
        ensures shorter { OnOk result (length self.new.rest.now < length self.old.rest.now) }
        ensures agrees { ReadsAs result self.new.rest.now (read_pattern room) self.old.rest.now }
    {
        if self.is_next(TokenKind::Underscore) {
            Ok(Pattern::Any {
                place: self.take(TokenKind::Underscore)?,
            })
        } else if self.is_next(TokenKind::Question) {
            let mark = self.take(TokenKind::Question)?;
            let name = self.take(TokenKind::Name)?;
            Ok(Pattern::Binder { mark, name })
        } else {
            Ok(Pattern::Value {
                value: self.expression(alloc, room)?,
            })
        }
    }
}

//! Facts and questions as text, such as `2a + 3 <= b`. Symbols are named by letters: a is symbol 0.
ghost use Rattle.std.specs.Prelude.{◌≡◌};

use fsl_lin::{Lin, LinFault, Sym};
use fsl_pure::Pure;
use std::alloc::Global;

/// A bound or an equation: the numbers of its left side less its right side, the constant first.
#[derive(Drop)]
pub struct Said {
    numbers: [i128; 27],
    equal: bool,
}

/// What was read of a fact so far: the sign of the side and that of the item, and the item's number.
#[derive(Drop)]
struct Progress {
    side: i128,
    sign: i128,
    count: Option<i128>,
}

impl Said {
    /// Reads a fact.
    pub fn read(text: &str) -> Said {
        let mut said = Said {
            numbers: [0; 27],
            equal: true,
        };
        let mut progress = Progress {
            side: 1,
            sign: 1,
            count: None,
        };
        for byte in text.as_bytes() {
            said.take(&mut progress, *byte);
        }
        said.end(&mut progress, 1);
        said
    }

    fn take(&mut self, progress: &mut Progress, byte: u8) {
        match byte {
            b'0'..=b'9' => {
                let digit = i128::from(byte - b'0');
                let before = progress.count.unwrap_or(0);
                progress.count = Some(before.wrapping_mul(10).wrapping_add(digit));
            }
            b'a'..=b'z' => {
                let times = progress.count.unwrap_or(1);
                self.add((byte - b'a') as usize + 1, progress, times);
                progress.count = None;
            }
            b'+' => self.end(progress, 1),
            b'-' => self.end(progress, -1),
            b'<' => self.equal = false,
            b'=' => {
                self.end(progress, 1);
                progress.side = -1;
            }
            _ => (),
        }
    }

    /// Ends an item, and begins one of this sign.
    fn end(&mut self, progress: &mut Progress, sign: i128) {
        let number = progress.count.unwrap_or(0);
        self.add(0, progress, number);
        progress.count = None;
        progress.sign = sign;
    }

    fn add(&mut self, place: usize, progress: &Progress, times: i128) {
        if place < 27 {
            let more = times
                .wrapping_mul(progress.sign)
                .wrapping_mul(progress.side);
            self.numbers[place] = self.numbers[place].wrapping_add(more);
        }
    }

    fn term(&self, alloc: Global) -> Result<Lin, LinFault> {
        let mut sum = Lin::constant(alloc, self.numbers[0])?;
        for s in 0..26 {
            if self.numbers[s + 1] != 0 {
                let symbol = Lin::symbol(alloc, Sym(s as u32))?;
                sum = sum.add(alloc, &symbol.scale(alloc, self.numbers[s + 1])?)?;
            }
        }
        Ok(sum)
    }
}

/// The term `t` of a text `t <= 0` or `t = 0`.
pub fn term(alloc: Global, text: &str) -> Result<Lin, LinFault> {
    Said::read(text).term(alloc)
}

/// Assumes a fact, and says whether it was taken in.
pub fn assumed(alloc: Global, pure: &mut Pure, text: &str) -> bool
    ensures { pure.new.marks ≡ pure.old.marks }
{
    let said = Said::read(text);
    match said.term(alloc) {
        Ok(t) if said.equal => pure.assume_eq(alloc, &t).is_ok(),
        Ok(t) => pure.assume_le(alloc, &t).is_ok(),
        Err(_) => false,
    }
}

/// Whether this is proved; `None` where the facts are absurd.
pub fn proved(alloc: Global, pure: &Pure, text: &str) -> Option<bool> {
    let said = Said::read(text);
    let zero = Lin::constant(alloc, 0).ok()?;
    let t = said.term(alloc).ok()?;
    if pure.absurd() {
        None
    } else if said.equal {
        Some(pure.proves_eq(&t, &zero))
    } else {
        Some(pure.proves_le(&t, &zero, 0))
    }
}

/// The same of the two sides as they stand, where `proved` asks of their difference and 0.
fn proved_of_sides(alloc: Global, pure: &Pure, text: &str) -> Option<bool> {
    let (left, right) = text.split_once('=')?;
    let said = Said::read(left);
    let a = said.term(alloc).ok()?;
    let b = term(alloc, right).ok()?;
    if pure.absurd() {
        None
    } else if said.equal {
        Some(pure.proves_eq(&a, &b))
    } else {
        Some(pure.proves_le(&a, &b, 0))
    }
}

/// The facts of a text, with `;` between them.
pub fn facts(alloc: Global, text: &str) -> Option<Pure> {
    let mut pure = Pure::new(alloc).ok()?;
    for fact in text.split(';') {
        if !assumed(alloc, &mut pure, fact) {
            return None;
        }
    }
    Some(pure)
}

/// Whether each of the questions of a text has this answer, asked in both ways.
pub fn all(alloc: Global, pure: &Pure, questions: &str, answer: bool) -> bool {
    for question in questions.split(';') {
        if proved(alloc, pure, question) != Some(answer)
            || proved_of_sides(alloc, pure, question) != Some(answer)
        {
            return false;
        }
    }
    true
}

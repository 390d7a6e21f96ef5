// The journal in plain words.
use crate::sums::Closing;
use journal::answers::{Answer, Issued};
use journal::calls::{Call, Line, Order};
use std::fmt;
use till::drawn::DrawnNumber;

// A line of the journal.
#[derive(Clone, Copy)]
pub(crate) struct LineInWords<'a>(pub(crate) &'a Line);

// The end of a day, in five lines.
#[derive(Clone, Copy)]
pub(crate) struct EndInWords<'a> {
    pub(crate) closing: &'a Closing,
    pub(crate) hand: &'a [DrawnNumber],
}

// What an issue asked.
fn write_order<W: fmt::Write>(order: &Order, f: &mut fmt::Formatter<W>) -> fmt::Result {
    let sale = &order.sale;
    write!(f, "issue of {}, SubClass {}", order.number, sale.subclass)?;
    write!(f, ", AMTConfig {}, AMT {}", sale.config, sale.amt)?;
    if let Some(list) = sale.prices {
        write!(f, ", {} prices", list.count)?;
    }
    Ok(())
}

// What was asked, in a few words.
fn write_call<W: fmt::Write>(call: &Call, f: &mut fmt::Formatter<W>) -> fmt::Result {
    match call {
        Call::Draw => f.write_str("draw"),
        Call::Issue(order) => write_order(order, f),
        Call::Void(cancellation) => write!(f, "void of {}", cancellation.number),
        Call::Enter(_) => f.write_str("entry"),
        Call::Spend(usage) => write!(f, "spend of {}", usage.amount),
    }
}

// The digits of a slip in groups of four, each with a blank before it.
fn write_groups<W: fmt::Write>(slip: &Issued, f: &mut fmt::Formatter<W>) -> fmt::Result {
    let digits = &slip.slip[..slip.length.min(slip.slip.len())];
    for group in digits.chunks(4) {
        f.write_char(' ')?;
        for digit in group {
            f.write_char(char::from(*digit))?;
        }
    }
    Ok(())
}

// What was answered, to stand after what was asked.
fn write_answer<W: fmt::Write>(answer: &Answer, f: &mut fmt::Formatter<W>) -> fmt::Result {
    match answer {
        Answer::Drawn(drawn) => write!(f, ": number {}", drawn.number),
        Answer::Issued(slip) => {
            f.write_str(":")?;
            write_groups(slip, f)
        }
        Answer::Voided => Ok(()),
        Answer::Taken(taken) => {
            write!(
                f,
                " taken: number {}, amount {}",
                taken.number, taken.amount
            )?;
            write!(f, ", credit {}", taken.credit)
        }
        Answer::Spent(spent) => write!(f, ": credit {}", spent.credit),
        Answer::NotInHand => f.write_str(" refused: not in hand"),
        Answer::Refused(refusal) => write!(f, " refused: {}, {}", refusal.number(), refusal),
    }
}

impl fmt::Display for LineInWords<'_> {
    fn fmt<W: fmt::Write>(&self, f: &mut fmt::Formatter<W>) -> fmt::Result {
        write_call(&self.0.call, f)?;
        write_answer(&self.0.answer, f)
    }
}

impl fmt::Display for EndInWords<'_> {
    fn fmt<W: fmt::Write>(&self, f: &mut fmt::Formatter<W>) -> fmt::Result {
        let Closing {
            opened,
            credit,
            balance,
            counts,
            in_hand,
            agrees,
        } = *self.closing;
        f.write_str("closing balance\n")?;
        write!(f, "opening credit {opened}, taken {}", balance.taken)?;
        write!(f, ", spent {}, credit {credit}\n", balance.spent)?;
        write!(f, "draws {}, issues {}", counts.draws(), counts.issues())?;
        write!(f, ", voids {}, in hand {in_hand}\nin hand:", counts.voids())?;
        for drawn in self.hand {
            write!(f, " {}", drawn.number())?;
        }
        let verdict = if agrees { "agree" } else { "do not agree" };
        write!(f, "\nthe sums {verdict}")
    }
}

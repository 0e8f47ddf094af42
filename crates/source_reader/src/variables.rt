// Which variables have names, for whoever tells of a function.

use crate::names::{Meaning, Task, number_after};
use source_tokens::Token;
use std::alloc::{AllocError, Global};

/// A variable that a name stands for: the number of its function, where the text declares the name, and the variable's
/// number. Another name of the function may have the same one, in another block.
#[derive(Clone, Copy, Debug)]
pub struct NamedVariable {
    pub function: u8,
    pub at: usize,
    pub variable: u8,
    /// Whether it is the end of the loop whose index has the name.
    pub is_end: bool,
}

/// The variables with names that were declared so far, and the number of the function that is read.
#[derive(Drop)]
pub(crate) struct Declared {
    function: u8,
    variables: Vec<NamedVariable>,
}

impl Declared {
    pub(crate) fn new(alloc: Global) -> Declared {
        Declared {
            function: 0,
            variables: Vec::new(alloc),
        }
    }

    /// From here on variables are those of the function of that number.
    pub(crate) fn begin(&mut self, function: u8) {
        self.function = function;
    }

    /// Adds what a name stands for, which is the first of the tokens. A group has no variable.
    pub(crate) fn add(&mut self, meaning: Meaning, tokens: &[Token]) -> Result<(), AllocError> {
        match meaning {
            Meaning::Variable(number) => self.add_one(number, false, tokens),
            Meaning::Counter(number) => {
                self.add_one(number, false, tokens)?;
                self.add_one(number_after(number), true, tokens)
            }
            Meaning::Task(
                Task {
                    variable,
                    is_group: false,
                    ..
                },
            ) => self.add_one(variable, false, tokens),
            _ => Ok(()),
        }
    }

    fn add_one(&mut self, variable: u8, is_end: bool, tokens: &[Token]) -> Result<(), AllocError> {
        if let Some((name, _)) = tokens.split_first() {
            self.variables.push(NamedVariable {
                function: self.function,
                at: name.at,
                variable,
                is_end,
            })?;
        }
        Ok(())
    }

    pub(crate) fn variables(self) -> Vec<NamedVariable> {
        self.variables
    }
}

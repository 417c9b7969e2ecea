//! The words of a filter.

use std::alloc::{AllocError, Global};

/// A word or a sign of a filter.
#[derive(Drop)]
pub enum Token {
    Word(String),
    /// What stands between quotes.
    Quoted(String),
    Open,
    Close,
    /// Two dots, between the ends of a range.
    To,
    Sign(Sign),
}

/// How a value is compared.
#[derive(Clone, Copy, Debug, PartialEq, Eq)]
pub enum Sign {
    Equal,
    Other,
    Below,
    AtMost,
    Above,
    AtLeast,
}

// What a word is being read as.
#[derive(Clone, Copy, PartialEq, Eq)]
enum Within {
    Nothing,
    Word,
    Quotes,
}

/// The words and signs of a filter; none where quotes aren't closed.
pub fn tokens_of(alloc: Global, text: &str) -> Result<Option<Vec<Token>>, AllocError> {
    let mut reading = Reading {
        tokens: Vec::new(alloc),
        word: String::new(alloc),
        within: Within::Nothing,
        escaped: false,
    };
    for letter in text.chars() {
        reading.take(alloc, letter)?;
    }
    if reading.within == Within::Quotes {
        return Ok(None);
    }
    reading.end_word(alloc)?;
    Ok(Some(reading.tokens))
}

#[derive(Drop)]
struct Reading {
    tokens: Vec<Token>,
    word: String,
    within: Within,
    // Whether a backslash stood before, between quotes.
    escaped: bool,
}

impl Reading {
    fn take(&mut self, alloc: Global, letter: char) -> Result<(), AllocError> {
        if self.within == Within::Quotes {
            return self.take_quoted(alloc, letter);
        }
        match letter {
            '"' => {
                self.end_word(alloc)?;
                self.within = Within::Quotes;
                Ok(())
            }
            ' ' | '\t' | '\n' | '\r' => self.end_word(alloc),
            '(' => self.push_sign(alloc, Token::Open),
            ')' => self.push_sign(alloc, Token::Close),
            '=' => self.take_equal(alloc),
            '<' => self.push_sign(alloc, Token::Sign(Sign::Below)),
            '>' => self.push_sign(alloc, Token::Sign(Sign::Above)),
            _ => self.take_letter(alloc, letter),
        }
    }

    // A letter of a word; two dots end it.
    fn take_letter(&mut self, alloc: Global, letter: char) -> Result<(), AllocError> {
        self.within = Within::Word;
        if letter == '.' && self.word.as_str().ends_with('.') {
            let _ = self.word.pop();
            return self.push_sign(alloc, Token::To);
        }
        self.word.push(letter)?;
        Ok(())
    }

    fn take_quoted(&mut self, alloc: Global, letter: char) -> Result<(), AllocError> {
        if self.escaped {
            self.escaped = false;
            self.word.push(letter)?;
        } else if letter == '\\' {
            self.escaped = true;
        } else if letter == '"' {
            let word = self.taken_word(alloc)?;
            self.tokens.push(Token::Quoted(word))?;
            self.within = Within::Nothing;
        } else {
            self.word.push(letter)?;
        }
        Ok(())
    }

    // An equals sign by itself, or behind another sign, which it then belongs to.
    fn take_equal(&mut self, alloc: Global) -> Result<(), AllocError> {
        if self.word.as_str() == "!" {
            self.word.clear();
            self.within = Within::Nothing;
            self.tokens.push(Token::Sign(Sign::Other))?;
            return Ok(());
        }
        if self.within == Within::Nothing
            && let Some(Token::Sign(sign)) = self.tokens.last_mut()
        {
            match sign {
                Sign::Below => *sign = Sign::AtMost,
                Sign::Above => *sign = Sign::AtLeast,
                _ => *sign = Sign::Equal,
            }
            return Ok(());
        }
        self.push_sign(alloc, Token::Sign(Sign::Equal))
    }

    fn push_sign(&mut self, alloc: Global, sign: Token) -> Result<(), AllocError> {
        self.end_word(alloc)?;
        self.tokens.push(sign)?;
        Ok(())
    }

    fn end_word(&mut self, alloc: Global) -> Result<(), AllocError> {
        if self.within == Within::Word && !self.word.is_empty() {
            let word = self.taken_word(alloc)?;
            self.tokens.push(Token::Word(word))?;
        }
        self.within = Within::Nothing;
        Ok(())
    }

    // The word that was read; nothing of the next one is read yet.
    fn taken_word(&mut self, alloc: Global) -> Result<String, AllocError> {
        let word = String::from_str(alloc, self.word.as_str())?;
        self.word.clear();
        Ok(word)
    }
}

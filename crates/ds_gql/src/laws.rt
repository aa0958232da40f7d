//! What is proved of the reading of texts, beside that `parse` meets it: each function does nothing, and its contract is a law.
ghost use Rattle.ds_gql.specs.GqlLaws.{SentencesAreRead, OnlySentencesAreRead, NoSentenceGoesOn, TokensBeforeGoOn};
ghost use Rattle.ds_gql.specs.GqlLaws.{StatementsHaveValues};

/// A text whose tokens are a sentence of the grammar is the statement that the sentence says.
pub fn sentences_are_read()
    ensures { SentencesAreRead }
{}

/// A text that is a statement has the tokens of a sentence of the grammar, which says that statement.
pub fn only_sentences_are_read()
    ensures { OnlySentencesAreRead }
{}

/// No sentence of the grammar begins with the tokens up to the byte that `At` tells.
pub fn no_sentence_goes_on()
    ensures { NoSentenceGoesOn }
{}

/// The tokens before the byte that `At` tells can go on to a sentence, so no earlier byte could be told.
pub fn tokens_before_go_on()
    ensures { TokensBeforeGoOn }
{}

/// Each filter of a statement that is read has the values of its operator: one, and at least one behind `IN`.
pub fn statements_have_values()
    ensures { StatementsHaveValues }
{}

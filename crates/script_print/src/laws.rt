ghost use Rattle.script_print.specs.Laws.{ReadsAgain, PrintsAgain};

/// What a program's tokens print as is read as these tokens again.
pub fn printed_tokens_are_read_again()
    ensures { ReadsAgain }
{}

/// What a program prints as spells the same program, only with other places.
pub fn printed_tree_is_read_again()
    ensures { PrintsAgain }
{}

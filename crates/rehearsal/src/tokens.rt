// Lists of tokens that are out.
ghost use Rattle.std.specs.Prelude.{◌≡◌, ◌==◌, ◌+◌, position, vec_len, vec_capacity, MatchOption};
ghost use Rattle.rehearsal.specs.TokenLists.{Taken};

use controller::Token;

// Takes a token with the number out of the list, where there is one.
pub(crate) fn take_token<K>(tokens: &mut Vec<Token<K>>, number: u16) -> Option<Token<K>>
    ensures taken { Taken tokens.old.items number result tokens.new.items }
    ensures len { MatchOption result (vec_len tokens.new ≡ vec_len tokens.old)
        (λ _. vec_len tokens.new + 1 ≡ vec_len tokens.old) }
    ensures room { vec_capacity tokens.new ≡ vec_capacity tokens.old }
{
    let place = token_place(tokens, number)?;
    Some(tokens.remove(place))
}

// The place of the first token with the number.
fn token_place<K>(tokens: &[Token<K>], number: u16) -> Option<usize>
    ensures { result ≡ position (λ token. token.number == number) tokens.now }
{
    tokens.iter().position(|token| token.number() == number)
}

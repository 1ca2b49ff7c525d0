// One field of a recorded call: a tag, two bytes of length, and so many bytes.
ghost use Rattle.std.specs.Prelude.{◌≡◌, ◌≤◌, length, IfOk};
ghost use Rattle.recorded_call.specs.RecordedCall.{field, answers_field, extension_field};
ghost use Rattle.recorded_call.specs.Fronts.{front, bytes, bytes_if_any};

use crate::front::{CallError, Taken};

// The field of this tag, of least to most bytes.
pub fn take(s: &[u8], tag: u8, least: usize, most: usize) -> Result<Taken<'_, &[u8]>, CallError>
    ensures value { front bytes result ≡ field tag least most s.now }
    ensures size { IfOk result (λ t. (least ≤ length t.value.now) × (length t.value.now ≤ most)) }
{
    let [first, _, _, behind @ ..] = s else {
        return Err(CallError::CutOff);
    };
    let n = octets::number_at::<2>(s, 1) as usize;
    if *first != tag || n < least || most < n {
        return Err(CallError::Bad);
    }
    let Some((value, rest)) = behind.split_at_checked(n) else {
        return Err(CallError::CutOff);
    };
    Ok(Taken { value, rest })
}

// The answers: a first byte above 7 has a wrong bit.
pub fn take_answers(s: &[u8]) -> Result<Taken<'_, &[u8]>, CallError>
    ensures value { front bytes result ≡ answers_field s.now }
    ensures size { IfOk result (λ t. length t.value.now ≡ 2) }
{
    let answers = take(s, 3, 2, 2)?;
    if 7 < answers.value[0] {
        return Err(CallError::Bad);
    }
    Ok(answers)
}

// The extension, if one came.
pub fn take_extension(s: &[u8]) -> Result<Taken<'_, Option<&[u8]>>, CallError>
    ensures { front bytes_if_any result ≡ extension_field s.now }
{
    if s.first() != Some(&5) {
        return Ok(Taken {
            value: None,
            rest: s,
        });
    }
    let extension = take(s, 5, 0, 4096)?;
    Ok(Taken {
        value: Some(extension.value),
        rest: extension.rest,
    })
}

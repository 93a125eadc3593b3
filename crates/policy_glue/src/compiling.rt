//! Compiles policies.

ghost use Rattle.std.specs.Prelude.{◌≡◌, ◌<◌, All, IfOk, Ok};
ghost use Rattle.loader.specs.Format.{image_from};
ghost use Rattle.loader.specs.declared.version.Version.TheVariants.{Second};
ghost use Rattle.policy_glue.specs.Compiled.{CompilesTo};
ghost use Rattle.policy_glue.specs.OneImage.{contents, OneImage};

use crate::checking::checked;
use crate::compile_error::CompileError;
use loader::Image;
use policy_code::laws::program_decides;
use policy_code::program_of;
use std::alloc::Global;
use verdicts::Policy;

/// Compiles the policy to an image of version 2. Started on the roots of a request, the program
/// leaves the verdict in its verdict region and exits with the outcome, or it is stopped for its
/// charge or because a value is too deep.
///
/// # Errors
///
/// The first refusal in the order of [`CompileError`]. `Memory` if an allocation fails, which says
/// nothing about the policy.
pub fn compile(alloc: Global, policy: &Policy) -> Result<Image, CompileError>
    ensures compiles { CompilesTo policy.now result }
    // Pins the image: there is only one that meets this clause.
    ensures one { IfOk result (λ image. OneImage policy.now image) }
{
    let checked = checked(alloc, policy)?;
    program_decides();
    let (code, constants) = program_of(alloc, policy.parts().failure_policy, &checked)?;
    Ok(image(code, constants))
}

/// The image with this code and these constants.
fn image(code: Vec<u8>, constants: Vec<u8>) -> Image
    requires { image_from Second code.items constants.items ≡ Ok (contents Second code.items constants.items) }
    ensures is { result ≡ contents Second code.items constants.items }
    ensures code { All (λ b. b < 256) code.items }
    ensures constants { All (λ b. b < 256) constants.items }
{
    match Image::new_2(code, constants) {
        Ok(image) => image,
        Err(_) => unreachable!(),
    }
}

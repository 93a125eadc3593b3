//! One order: a command with its arguments.

use crate::documents::document_names::DocumentNames;
use crate::documents::review_names::ReviewNames;

/// What the program is asked to do; one variant for each command.
#[derive(Debug, Drop)]
pub enum Order {
    /// `compile POLICY IMAGE`: compiles a policy to an image.
    Compile {
        /// The file name of the policy as given. It may be empty.
        policy: String,
        /// The image's file name as given. It may be empty.
        image: String,
    },
    /// `review --policy F --review F [--namespace F] [--params F] [--steps N]`: prints the response
    /// to a review under a policy.
    Review {
        /// The files of the policy and of the review's documents.
        files: ReviewNames,
        /// The largest number of instructions that may run, from 0 to 1,000,000,000. The default is
        /// 10,000,000.
        steps: u64,
    },
    /// `run-image IMAGE [--steps N]`: runs an image.
    RunImage {
        /// The image's file name as given. It may be empty.
        image: String,
        /// The largest number of instructions that may run, from 0 to 1,000,000,000. The default is
        /// 10,000,000.
        steps: u64,
    },
    /// `asm TEXT IMAGE`: assembles a program's text to an image without constants.
    Assemble {
        /// The file name of the text as given. It may be empty.
        text: String,
        /// The image's file name as given. It may be empty.
        image: String,
    },
    /// `list IMAGE`: lists the code of an image.
    List {
        /// The image's file name as given. It may be empty.
        image: String,
    },
    /// `debug IMAGE [--review F] [--namespace F] [--params F]`: debugs an image in a session on
    /// standard input and output.
    Debug {
        /// The image's file name as given. It may be empty.
        image: String,
        /// The files of the documents that give the roots for the program.
        documents: DocumentNames,
    },
}

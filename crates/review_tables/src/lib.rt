//! The values of reviews and of other documents, read from their JSON texts into tables.
#![tactic(auto)]

mod checking;
mod collecting;
mod document_pool;
mod found_members;
mod kept_memory;
mod member_text;
mod members;
mod numbers;
mod open_review;
mod other_roots;
mod pending_list;
mod pending_map;
mod placed;
mod placed_request;
mod placing;
mod pooled_document;
mod read_error;
mod read_memory;
mod reading;
mod requests;
mod review;
mod review_error;
mod review_fields;
mod review_table;
mod root_kind;
mod root_places;
mod shared_documents;

pub use checking::{check_token, check_value};
pub use document_pool::DocumentPool;
pub use member_text::text_at;
pub use open_review::OpenReview;
pub use pooled_document::PooledDocument;
pub use review_error::ReviewError;
pub use review_table::{table_of_review, table_without_review};
pub use shared_documents::SharedDocuments;
